// The text of a file with a line at each point.

ghost use Rattle.std.specs.Prelude.{◌≤◌, length};
ghost use Rattle.session_values.specs.Limits.{max_input};
ghost use Rattle.handler_check.specs.Mentions.{AreNamed, file_mentions};

use handler_syntax::{Declarations, File, parse, print_with_declarations};
use session_values::{Kind, Names, Value};
use std::alloc::Global;
use std::test::Fail;
use symbolic_ops::{Arg, Symbol};

/// At each point the first symbols, as many as the point's number, if there are so many. The
/// handlers' one table and first variable have these names.
#[derive(Drop)]
struct Sample {
    symbols: Vec<Symbol>,
    table: u32,
    variable: u32,
}

impl Declarations for Sample {
    ghost use Rattle.std.specs.Prelude.{[], ◌∷◌, length, min, take, true};

    ghost at_points = { λ s. record {
      shown = true;
      symbols = λ handler point. take (min point (length s.symbols.items)) s.symbols.items;
      tables = s.table ∷ [];
      variables = λ handler. s.variable ∷ [];
    } };

    fn is_shown(&self) -> bool {
        true
    }

    fn symbols(&self, _handler: u32, point: u32) -> &[Symbol] {
        let count = (point as usize).min(self.symbols.len());
        &self.symbols[..count]
    }

    fn table(&self, table: u32) -> Option<u32> {
        if table == 0 { Some(self.table) } else { None }
    }

    fn variable(&self, _handler: u32, variable: u32) -> Option<u32> {
        if variable == 0 {
            Some(self.variable)
        } else {
            None
        }
    }
}

fn three_symbols(alloc: Global, names: &Names) -> Result<Sample, Fail> {
    let put = Symbol::new(Kind::Put, 0, Arg::Var(0), Arg::Known(Value::Num(-7)));
    let get = Symbol::new(Kind::Get, 0, Arg::Any, Arg::Known(Value::Nil));
    let size = Symbol::new(
        Kind::Size,
        0,
        Arg::Known(Value::Nil),
        Arg::Known(Value::Nil),
    );
    let (Some(table), Some(variable)) = (names.find("m"), names.find("k")) else {
        return Err("no such names")?;
    };
    Ok(Sample {
        symbols: vec![in alloc; put, get, size]?,
        table,
        variable,
    })
}

/// Whether a file has this text with the declarations of the sample.
fn is_text(alloc: Global, file: &File, names: &Names, want: &str) -> Result<bool, Fail>
    requires { AreNamed names.now (file_mentions file.now) }
{
    let at = three_symbols(alloc, names)?;
    let text = print_with_declarations(alloc, 0, file.tree(), &at, names)?;
    Ok(text.as_str() == want)
}

/// Whether the source has this text with the declarations of the sample.
fn is_declared(alloc: Global, source: &str, want: &str) -> Result<bool, Fail>
    requires { length source.now ≤ max_input }
{
    let mut names = Names::with_seed(alloc, 0);
    let file = parse(alloc, source, &mut names)?;
    is_text(alloc, &file, &names, want)
}

const SOURCE: &str = "map m;
handler h(k) {
  if k == nil { put(m, k, 2); }
  repeat 2 as i { if i < 1 { reply i; } else { del(m, k); } }
  let x = get(m, k);
  reply x;
}
";

const TEXT: &str = "map m;
handler h(k) {
  mayuse nothing;
  if k == nil {
    mayuse put(m, k, -7);
    put(m, k, 2);
    mayuse put(m, k, -7), get(m, any);
  } else {
    mayuse put(m, k, -7), get(m, any), size(m);
  }
  repeat 2 as i {
    if i < 1 {
      mayuse put(m, k, -7), get(m, any), size(m);
      reply i;
    } else {
      mayuse put(m, k, -7), get(m, any), size(m);
      del(m, k);
      mayuse put(m, k, -7), get(m, any), size(m);
    }
  }
  mayuse put(m, k, -7), get(m, any), size(m);
  let x = get(m, k);
  mayuse put(m, k, -7), get(m, any), size(m);
  reply x;
}
";

#[test]
fn declares_at_each_point(rt: HostRuntime) -> Result<(), Fail> {
    let is_so = is_declared(rt.alloc(), SOURCE, TEXT)?;
    assert_eq!(rt; is_so, true);
    Ok(())
}
