// A text that is written in pages.

ghost use Rattle.std.specs.Prelude.{◌≡◌, [], true, false};
ghost use Rattle.byte_ends.specs.Ends.{Counted, Appended, AppendedPrefix};
ghost use Rattle.byte_ends.specs.Texts.{IsPut};

use crate::sink::Sink;
use crate::text_sink::{PutsText, TextSink};
use crate::write_buffer::WriteBuffer;
use crate::writing::write_all;

/// Takes a text to a sink of bytes, in pages. Once the sink has failed, nothing more is written.
#[derive(Drop)]
struct PageWriter<'a, O: Sink> {
    out: &'a mut O,
    page: WriteBuffer,
    broken: bool,
}

impl<'a, O: Sink> TextSink for PageWriter<'a, O> {
    ghost use Rattle.std.specs.Prelude.{◌≡◌};
    ghost use Rattle.byte_ends.specs.Texts.{IsPaged};

    ghost IsDue = { λ start whole now rest. (now.out.ghost_name ≡ start.out.ghost_name)
        × IsPaged (O.held start.out.now) (O.held now.out.now)
        (O.faults start.out.now) (O.faults now.out.now) now.broken now.page.held whole rest };

    fn put(&mut self, text: &str) {
        let bytes = text.as_bytes();
        if self.page.reserve(bytes.len()) {
            self.page.push(bytes);
            return;
        }
        self.flush();
        if self.page.reserve(bytes.len()) {
            self.page.push(bytes);
            return;
        }
        self.write(bytes);
    }
}

impl<'a, O: Sink> PageWriter<'a, O> {
    // A writer by way of the page, in place of what that held.
    fn over(out: &'a mut O, mut page: WriteBuffer) -> PageWriter<'a, O>
        ensures name { result.out.ghost_name ≡ out.entry.ghost_name }
        ensures out { result.out.now ≡ out.old }
        ensures page { result.page.held ≡ [] }
        ensures sound { result.broken ≡ false }
    {
        page.clear();
        PageWriter {
            out,
            page,
            broken: false,
        }
    }

    // Writes what waits, and empties the page.
    fn flush(&mut self)
        ensures name { self.new.out.ghost_name ≡ self.old.out.ghost_name }
        ensures page { self.new.page.held ≡ [] }
        ensures put { IsPut (O.held self.old.out.now) (O.held self.new.out.now)
            (O.faults self.old.out.now) (O.faults self.new.out.now)
            self.old.broken self.new.broken self.old.page.held }
    {
        self.broken = write_unless(self.broken, self.out, self.page.bytes());
        self.page.clear();
    }

    // Writes bytes past the page.
    fn write(&mut self, bytes: &[u8])
        ensures name { self.new.out.ghost_name ≡ self.old.out.ghost_name }
        ensures page { self.new.page ≡ self.old.page }
        ensures put { IsPut (O.held self.old.out.now) (O.held self.new.out.now)
            (O.faults self.old.out.now) (O.faults self.new.out.now)
            self.old.broken self.new.broken bytes.now }
    {
        self.broken = write_unless(self.broken, self.out, bytes);
    }
}

// Writes bytes, unless the sink has failed. It answers whether the sink has failed, then or now.
fn write_unless<O: Sink>(broken: bool, out: &mut O, bytes: &[u8]) -> bool
    ensures { IsPut (O.held out.old) (O.held out.new) (O.faults out.old) (O.faults out.new) broken
        result bytes.now }
{
    if broken {
        return true;
    }
    !write_all(out, bytes)
}

/// Writes a text, in pages: by way of the page, in place of what that held. It answers `false`
/// after a fault.
pub fn write_text<O: Sink, P: PutsText>(out: &mut O, text: &P, page: WriteBuffer) -> bool
    requires { P.CanPut text.now }
    ensures all { result ≡ true → Appended (O.held out.old) (O.held out.new) (P.text text.now) }
    ensures faults { Counted result (O.faults out.old) (O.faults out.new) }
    ensures front { result ≡ false
        → AppendedPrefix (O.held out.old) (O.held out.new) (P.text text.now) }
{
    let mut writer = PageWriter::over(out, page);
    text.put_text(&mut writer);
    writer.flush();
    let PageWriter {
        out: sink,
        page: _page,
        broken,
    } = writer;
    // No effect at run time. The proof reads what the sink holds from this use of it.
    let _ = &*sink;
    !broken
}
