// Tokens of short texts, and the words of one.

ghost use Rattle.std.specs.Prelude.{◌≤◌, IfOk, length};

use session_values::Names;
use std::alloc::Global;
use std::test::Fail;
use syntax_grammar::{Reader, Tokens};

/// Texts and their tokens, as `text~tokens`, a `/` behind each but the last.
const TABLE: &str = "\
    ~End 0 0 |/\
    map m$;~Key 0 3 map|Name 4 5 m|Bad 5 6 $|Sign 6 7 ;|End 7 7 |/\
    'nil 'nil.x~Bad 0 1 '|Key 1 4 nil|Symbol 5 11 'nil.x|End 11 11 |/\
    'map'a-b@c:d_9~Symbol 0 4 'map|Symbol 4 14 'a-b@c:d_9|End 14 14 |/\
    '9 ' ! _~Bad 0 1 '|Number 1 2 9|Bad 3 4 '|Bad 5 6 !|Bad 7 8 _|End 8 8 |/\
    a<=b<c~Name 0 1 a|Sign 1 3 <=|Name 3 4 b|Sign 4 5 <|Name 5 6 c|End 6 6 |/\
    =!====~Sign 0 1 =|Sign 1 3 !=|Sign 3 5 ==|Sign 5 6 =|End 6 6 |/\
    ()}{,;+-*~Sign 0 1 (|Sign 1 2 )|Sign 2 3 }|Sign 3 4 {|Sign 4 5 ,|Sign 5 6 ;|Sign 6 7 +|\
    Sign 7 8 -|Sign 8 9 *|End 9 9 |/\
    12ab_3 4~Number 0 2 12|Name 2 6 ab_3|Number 7 8 4|End 8 8 |/\
    a # ä # 'x\n\tlet\r\n# end~Name 0 1 a|Key 13 16 let|End 23 23 |/\
    ä€x~Bad 0 2 ä|Bad 2 5 €|Name 5 6 x|End 6 6 |/\
    mayuse count drops~Key 0 6 mayuse|Key 7 12 count|Name 13 18 drops|End 18 18 |/\
    map set handler let if else repeat as reply nil nothing any get put swap del size bump has \
    add mark drop count ma maps pu counts bumps~Key 0 3 map|Key 4 7 set|Key 8 15 handler|Key 16 \
    19 let|Key 20 22 if|Key 23 27 else|Key 28 34 repeat|Key 35 37 as|Key 38 43 reply|Key 44 47 \
    nil|Key 48 55 nothing|Key 56 59 any|Key 60 63 get|Key 64 67 put|Key 68 72 swap|Key 73 76 \
    del|Key 77 81 size|Key 82 86 bump|Key 87 90 has|Key 91 94 add|Key 95 99 mark|Key 100 104 \
    drop|Key 105 110 count|Name 111 113 ma|Name 114 118 maps|Name 119 121 pu|Name 122 128 \
    counts|Name 129 134 bumps|End 134 134 |/\
    a123456789b123456789c123456789d123456789e123456789f123456789g123 \
    a123456789b123456789c123456789d123456789e123456789f123456789g123x \
    'a123456789b123456789c123456789d123456789e123456789f123456789g123 \
    'a123456789b123456789c123456789d123456789e123456789f123456789g123.~\
    Name 0 64 a123456789b123456789c123456789d123456789e123456789f123456789g123|\
    Long 65 130 a123456789b123456789c123456789d123456789e123456789f123456789g123x|\
    Symbol 131 196 'a123456789b123456789c123456789d123456789e123456789f123456789g123|\
    Long 197 263 'a123456789b123456789c123456789d123456789e123456789f123456789g123.|\
    End 263 263 |";

/// Appends the tokens of a text, one after another, as `Name 4 5 m|`.
fn add_tokens(source: &str, text: &mut String) -> Result<(), Fail>
    requires { length source.now ≤ 1000 }
{
    for token in Tokens::over(source) {
        write!(
            text,
            "{:?} {} {} {}|",
            token.kind, token.start, token.end, token.text
        )?;
    }
    Ok(())
}

/// Whether a text has these tokens.
fn is_cut(alloc: Global, source: &str, want: &str) -> Result<bool, Fail> {
    if source.len() > 1000 {
        return Ok(false);
    }
    let mut text = String::new(alloc);
    add_tokens(source, &mut text)?;
    Ok(text.as_str() == want)
}

/// The first text of a table that has other tokens than its row says.
fn cut_otherwise(alloc: Global, table: &str) -> Result<Option<&str>, Fail> {
    for row in table.split('/') {
        let (source, want) = row.split_once('~').unwrap_or((row, ""));
        if !is_cut(alloc, source, want)? {
            return Ok(Some(source));
        }
    }
    Ok(None)
}

#[test]
fn cuts_tokens(rt: HostRuntime) -> Result<(), Fail> {
    let otherwise = cut_otherwise(rt.alloc(), TABLE)?;
    assert_eq!(rt; otherwise, None);
    Ok(())
}

/// Appends 16 words, each looked at before it is taken, as `Name(1) 4|`.
fn add_words(reader: &mut Reader, text: &mut String) -> Result<(), Fail> {
    for _ in 0..16u32 {
        let seen = reader.peek()?;
        let taken = reader.take()?;
        let is_steady = seen == taken;
        write!(text, "{:?} {} {is_steady}|", taken.sort, taken.at)?;
    }
    Ok(())
}

/// Whether a reader has these 16 words next.
fn are_words(alloc: Global, reader: &mut Reader, want: &str) -> Result<bool, Fail> {
    let mut text = String::new(alloc);
    add_words(reader, &mut text)?;
    Ok(text.as_str() == want)
}

/// Names with the one name `b`.
fn one_name(alloc: Global) -> Result<Names, Fail>
    ensures { IfOk result (λ names. length names ≤ 1000) }
{
    let mut names = Names::with_seed(alloc, 0);
    names.place("b")?;
    if names.len() > 1000 {
        return Err("too many names")?;
    }
    Ok(names)
}

/// Whether a source behind the one name `b` has these words, and then so many names.
fn has_words(alloc: Global, source: &str, want: &str, count: u32) -> Result<bool, Fail>
    requires { length source.now ≤ 1000 }
{
    let mut names = one_name(alloc)?;
    let mut reader = Reader::over(source, &mut names);
    let is_so = are_words(alloc, &mut reader, want)?;
    let found = reader.into_names().len();
    Ok(is_so && found == count)
}

#[test]
fn reads_words(rt: HostRuntime) -> Result<(), Fail> {
    let source = "let a = 'b + 'a.c; # a\n18446744073709551617 a 'nil put <= set";
    let want = "Let 0 true|Name(1) 4 true|Assign 6 true|Symbol(0) 8 true|Plus 11 true|\
        Symbol(2) 13 true|Semicolon 17 true|Number(18446744073709551615) 23 true|\
        Name(1) 44 true|Bad 46 true|Nil 47 true|Do(Put) 51 true|\
        Compare(LessOrSame) 55 true|Table(Set) 58 true|End 61 true|End 61 true|";
    let is_so = has_words(rt.alloc(), source, want, 3)?;
    assert_eq!(rt; is_so, true);
    Ok(())
}
