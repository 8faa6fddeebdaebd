// Trees of sources and of canonical texts, and the fronts of a source that are files.

ghost use Rattle.std.specs.Prelude.{◌≤◌, length};
ghost use Rattle.session_values.specs.Limits.{max_input};

use crate::helpers::{is_again, shown_otherwise};
use handler_syntax::parse;
use session_values::Names;
use std::alloc::Global;
use std::test::Fail;

/// Sources and their trees, or what stands where they are refused, as `source~tree`, a `/` behind
/// each but the last.
const TABLE: &str = "\
    map m;\nhandler f(~Unexpected { at: 17, found: End }/\
    handler f() { } map m;~Unexpected { at: 16, found: Key }/\
    handler f(x,) { }~Unexpected { at: 12, found: Sign }/\
    ~File { tables: Listed { items: [] }, handlers: Listed { items: [] } }/\
    set s;~File { tables: Listed { items: [TableDecl { kind: Set, name: 0, at: 4 }] }, \
    handlers: Listed { items: [] } }/\
    handler f() { reply 1 - 2 - 3 * (4 + 'a), nil; }~File { tables: Listed { items: [] }, \
    handlers: Listed { items: [Handler { name: 0, at: 8, params: Listed { items: [] }, body: \
    Listed { items: [Answer { at: 14, values: Listed { items: [Binary { calc: Minus, sides: \
    Boxed { inner: (Binary { calc: Minus, sides: Boxed { inner: (Lit(Num(1)), Lit(Num(2))) } \
    }, Binary { calc: Times, sides: Boxed { inner: (Lit(Num(3)), Binary { calc: Plus, sides: \
    Boxed { inner: (Lit(Num(4)), Lit(Sym(1))) } }) } }) } }, Lit(Nil)] } }] } }] } }/\
    map m; handler f(k) { x = size(m); del(m, k); if k <= 1 { } else { y = k; } }~File { \
    tables: Listed { items: [TableDecl { kind: Map, name: 0, at: 4 }] }, handlers: Listed { \
    items: [Handler { name: 1, at: 15, params: Listed { items: [Param { name: 2, at: 17 }] }, \
    body: Listed { items: [Assign { name: 3, at: 22, right: Result(Call { kind: Size, at: 26, \
    table: 0, table_at: 31, args: Listed { items: [] } }) }, Perform { call: Call { kind: \
    Del, at: 35, table: 0, table_at: 39, args: Listed { items: [Name { name: 2, at: 42 }] } } \
    }, Choose { at: 46, cond: Boxed { inner: Cond { compare: LessOrSame, left: Name { name: \
    2, at: 49 }, right: Lit(Num(1)) } }, yes: Listed { items: [] }, no: Listed { items: \
    [Assign { name: 4, at: 67, right: Plain(Name { name: 2, at: 71 }) }] } }] } }] } }/\
    map m; handler f() { repeat 3 as i { let j = -9223372036854775808; } }~File { tables: \
    Listed { items: [TableDecl { kind: Map, name: 0, at: 4 }] }, handlers: Listed { items: \
    [Handler { name: 1, at: 15, params: Listed { items: [] }, body: Listed { items: [Repeat { \
    at: 21, turns: 3, turns_at: 28, name: 2, name_at: 33, body: Listed { items: [Let { name: \
    3, at: 41, right: Plain(Lit(Num(-9223372036854775808))) }] } }] } }] } }";

#[test]
fn reads_trees(rt: HostRuntime) -> Result<(), Fail> {
    let otherwise = shown_otherwise(rt.alloc(), TABLE)?;
    assert_eq!(rt; otherwise, None);
    Ok(())
}

#[test]
fn reads_the_canonical_text(rt: HostRuntime) -> Result<(), Fail> {
    let source = "map m; handler f(a) { if (a)==nil { repeat 2 as i { put(m,i,a); } } else { } \
        let b = get(m,a); reply b; }";
    let printed = "map m;\nhandler f(a) {\n  if a == nil {\n    repeat 2 as i {\n      \
        put(m, i, a);\n    }\n  }\n  let b = get(m, a);\n  reply b;\n}\n";
    let is_read_back = is_again(rt.alloc(), source, printed)?;
    assert_eq!(rt; is_read_back, true);
    Ok(())
}

const SESSION: &str = "map seats;\nset online;\nhandler login(u, now) {\n  \
    let old = swap(seats, u, now);\n  mark(online, u);\n  reply old;\n}\nhandler logout(u) {\n  \
    del(seats, u);\n  drop(online, u);\n}\n";

/// Whether a text is a file.
fn is_file(alloc: Global, text: &str) -> bool
    requires { length text.now ≤ max_input }
{
    let mut names = Names::with_seed(alloc, 0);
    parse(alloc, text, &mut names).is_ok()
}

/// The number of ends at which a session's front is a file, and whether these are all of them.
fn whole_fronts(alloc: Global, ends: &[usize]) -> (usize, bool) {
    let mut count: usize = 0;
    let mut is_all = true;
    for end in 0..173usize {
        if let Some(front) = SESSION.get(..end) {
            if is_file(alloc, front) {
                count = count.saturating_add(1);
                is_all = is_all && ends.contains(&end);
            }
        }
    }
    (count, is_all)
}

#[test]
fn reads_fronts_of_a_session(rt: HostRuntime) {
    let whole = whole_fronts(rt.alloc(), &[0, 10, 11, 22, 23, 113, 114, 171, 172]);
    assert_eq!(rt; whole, (9, true));
}
