//! Laws on the scripts of programs.

ghost use Rattle.std.specs.Prelude.{◌≡◌};
ghost use Rattle.session_journal.specs.Script.{IsScript, session_of};
ghost use Rattle.request_files.specs.Session.{session};
ghost use Rattle.handler_machine.specs.Scripts.{KeepsScripts, ScriptsView, meaning};

/// The session of a script is that of its requests over the tables that it opens with, and the
/// script is lawful: what is declared at a ticket's entry, behind each reply and last before each
/// call covers the rest of the ticket.
pub fn scripts_are_lawful()
    ensures session { (s : ScriptsView)
        → session_of (meaning s) ≡ session s.program.file s.opening s.requests }
    ensures lawful { (s : ScriptsView) → KeepsScripts s → IsScript (meaning s) }
{}
