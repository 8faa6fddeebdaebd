// The line on the error output.

ghost use Rattle.std.specs.Prelude.{◌≡◌, ◌≢◌, ◌≤◌, length};
ghost use Rattle.serve_faults.specs.Message as spec;

use crate::status::{Fault, Status};
use byte_ends::{ShortText, push_number, short_text};
use handler_check::CheckRefusal;
use handler_syntax::SyntaxRefusal;
use may_use_analysis::AnalysisRefusal;
use range_tables::RangeRefusal;
use request_files::RequestRefusal;
use serve_words::usage_line;
use table_lines::TableRefusal;
use trace_lines::TraceRefusal;

/// The line that tells how a run ended; none where it ended well.
pub fn message_of(status: &Status) -> ShortText
    ensures { result.bytes ≡ spec.message_of status.now }
{
    match status {
        Status::Fine => short_text(""),
        Status::Usage => short_text(usage_line()),
        Status::Refused(fault) => fault_line(fault),
        Status::NoMemory => short_text("no memory\n"),
        Status::ReadFault => short_text("read fault\n"),
        Status::WriteFault => short_text("write fault\n"),
    }
}

fn fault_line(fault: &Fault) -> ShortText
    ensures { result.bytes ≡ spec.fault_line fault.now }
{
    match fault {
        Fault::TooLarge => short_text("refused T1\n"),
        Fault::NoRequests => short_text("refused T2\n"),
        Fault::HasRequests => short_text("refused T3\n"),
        Fault::NotText => short_text("refused T4\n"),
        Fault::NoTrace => short_text("refused T5\n"),
        Fault::TooManyClients => short_text("refused T6\n"),
        Fault::Syntax(e) => syntax_line(e.refusal()),
        Fault::Check(e) => check_line(e.refusal()),
        Fault::Analysis(e) => analysis_line(e.refusal()),
        Fault::Tables(e) => table_line(e.refusal()),
        Fault::Request(e) => request_line(e.refusal()),
        Fault::Trace(e) => trace_line(e.refusal()),
        Fault::Ranges(e) => range_line(e.refusal()),
    }
}

fn syntax_line(e: &SyntaxRefusal) -> ShortText
    requires { e.now ≢ SyntaxRefusal.NoMemory }
    ensures { result.bytes ≡ spec.syntax_line e.now }
{
    match e {
        SyntaxRefusal::BadByte { at } => numbered("refused S1 at ", *at),
        SyntaxRefusal::Unexpected { at, .. } => numbered("refused S2 at ", *at),
        SyntaxRefusal::NumberTooLarge { at } => numbered("refused S3 at ", *at),
        SyntaxRefusal::NameTooLong { at } => numbered("refused S4 at ", *at),
        SyntaxRefusal::TooDeep { at } => numbered("refused S5 at ", *at),
        SyntaxRefusal::NoMemory => unreachable!(),
    }
}

fn check_line(e: &CheckRefusal) -> ShortText
    requires { e.now ≢ CheckRefusal.NoMemory }
    ensures { result.bytes ≡ spec.check_line e.now }
{
    match e {
        CheckRefusal::Twice { at } => numbered("refused K1 at ", *at),
        CheckRefusal::Unknown { at } => numbered("refused K2 at ", *at),
        CheckRefusal::Arity { at } => numbered("refused K3 at ", *at),
        CheckRefusal::WrongTable { at } => numbered("refused K4 at ", *at),
        CheckRefusal::RepeatBound { at } => numbered("refused K5 at ", *at),
        CheckRefusal::TooManyTables { at } => numbered("refused K6 at ", *at),
        CheckRefusal::TooManyHandlers { at } => numbered("refused K7 at ", *at),
        CheckRefusal::TooManyVariables { at } => numbered("refused K8 at ", *at),
        CheckRefusal::TooManyCalls { at } => numbered("refused K9 at ", *at),
        CheckRefusal::TooMuchWork { at } => numbered("refused K10 at ", *at),
        CheckRefusal::NoMemory => unreachable!(),
    }
}

/// A rule, and a byte place or the number of a line.
fn numbered(rule: &str, number: u32) -> ShortText
    requires { length rule.now ≤ 20 }
    ensures { result.bytes ≡ spec.numbered rule.now number }
{
    let mut text = short_text(rule);
    push_number(&mut text, u64::from(number));
    text.push_str("\n");
    text
}

fn analysis_line(e: &AnalysisRefusal) -> ShortText
    requires { e.now ≢ AnalysisRefusal.NoMemory }
    ensures { result.bytes ≡ spec.analysis_line e.now }
{
    match e {
        AnalysisRefusal::TooManySymbols { at, count } => {
            let mut text = short_text("refused A1 at ");
            push_number(&mut text, u64::from(*at));
            text.push_str(" count ");
            push_number(&mut text, *count);
            text.push_str("\n");
            text
        }
        AnalysisRefusal::NoMemory => unreachable!(),
    }
}

fn table_line(e: &TableRefusal) -> ShortText
    requires { e.now ≢ TableRefusal.NoMemory }
    ensures { result.bytes ≡ spec.table_line e.now }
{
    match e {
        TableRefusal::UnknownTable { line } => numbered("refused B1 line ", *line),
        TableRefusal::Arity { line } => numbered("refused B2 line ", *line),
        TableRefusal::BadWord { line } => numbered("refused B3 line ", *line),
        TableRefusal::Twice { line } => numbered("refused B4 line ", *line),
        TableRefusal::TooManyEntries { line } => numbered("refused B5 line ", *line),
        TableRefusal::NoMemory => unreachable!(),
    }
}

fn request_line(e: &RequestRefusal) -> ShortText
    requires { e.now ≢ RequestRefusal.NoMemory }
    ensures { result.bytes ≡ spec.request_line e.now }
{
    match e {
        RequestRefusal::UnknownHandler { line } => numbered("refused Q1 line ", *line),
        RequestRefusal::Arity { line } => numbered("refused Q2 line ", *line),
        RequestRefusal::BadWord { line } => numbered("refused Q3 line ", *line),
        RequestRefusal::TooManyRequests { line } => numbered("refused Q4 line ", *line),
        RequestRefusal::TooManyCalls { line } => numbered("refused Q5 line ", *line),
        RequestRefusal::TooMuchWork { line } => numbered("refused Q6 line ", *line),
        RequestRefusal::NoMemory => unreachable!(),
    }
}

fn trace_line(e: &TraceRefusal) -> ShortText
    requires { e.now ≢ TraceRefusal.NoMemory }
    ensures { result.bytes ≡ spec.trace_line e.now }
{
    match e {
        TraceRefusal::BadEvent { line } => numbered("refused F1 line ", *line),
        TraceRefusal::TooManyEvents { line } => numbered("refused F2 line ", *line),
        TraceRefusal::NoMemory => unreachable!(),
    }
}

fn range_line(e: &RangeRefusal) -> ShortText
    requires { e.now ≢ RangeRefusal.NoMemory }
    ensures { result.bytes ≡ spec.range_line e.now }
{
    match e {
        RangeRefusal::UnknownWord { line } => numbered("refused G1 line ", *line),
        RangeRefusal::Arity { line } => numbered("refused G2 line ", *line),
        RangeRefusal::BadWord { line } => numbered("refused G3 line ", *line),
        RangeRefusal::NotOpen { line } => numbered("refused G4 line ", *line),
        RangeRefusal::TooMany { line } => numbered("refused G5 line ", *line),
        RangeRefusal::NoMemory => unreachable!(),
    }
}
