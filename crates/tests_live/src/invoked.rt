// Requests by the number of their handler.

use live_session::{Argument, InvokeError, LiveSession};
use session_values::{Reply, Value};
use std::alloc::Global;
use std::test::Fail;

/// Handlers over a map that opens with an entry. There are six names.
const BOOK: &str = "map m; handler store(k, v) { put(m, k, v); reply k, v; }\n\
    handler fetch(k) { let v = get(m, k); reply v; }\n\
    %% tables\nm 1 a\n%%\n";

/// The first value of a reply, or why there is none.
type Told = Result<Value, InvokeError>;

fn told(answer: Result<Reply, InvokeError>) -> Told {
    match answer {
        Ok(reply) => Ok(reply.a()),
        Err(why) => Err(why),
    }
}

/// What requests of each kind are answered.
fn answers(alloc: Global) -> Option<[Told; 8]> {
    let Ok(mut session) = LiveSession::open(alloc, BOOK.as_bytes(), 7, 8) else {
        return None;
    };
    let (Some(store), Some(fetch)) = (
        session.handler_named("store"),
        session.handler_named("fetch"),
    ) else {
        return None;
    };
    let text = "x #\n y";
    Some([
        told(session.invoke(fetch, &[Argument::Number(1)])),
        told(session.invoke(store, &[Argument::Symbol("b"), Argument::Number(-7)])),
        told(session.invoke(fetch, &[Argument::Symbol("b")])),
        told(session.invoke(fetch, &[Argument::Nil])),
        told(session.invoke(fetch, &[Argument::Symbol(text)])),
        told(session.invoke(fetch, &[Argument::Name(1000)])),
        told(session.invoke(fetch, &[])),
        told(session.invoke(9, &[])),
    ])
}

#[test]
fn answers_requests_by_number(rt: HostRuntime) -> Result<(), Fail> {
    let wanted = [
        Ok(Value::Sym(5)),
        Ok(Value::Sym(6)),
        Ok(Value::Num(-7)),
        Ok(Value::Nil),
        Err(InvokeError::NoSymbol),
        Err(InvokeError::NoName),
        Err(InvokeError::Arity),
        Err(InvokeError::UnknownHandler),
    ];
    assert_eq!(rt; answers(rt.alloc()), Some(wanted));
    Ok(())
}
