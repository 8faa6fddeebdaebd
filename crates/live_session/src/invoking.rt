// Requests by the number of their handler, without a text.

ghost use Rattle.std.specs.Prelude.{◌≡◌, ◌<◌, ◌≤◌, MatchOption, length};
ghost use Rattle.handler_check.specs.Resolved.{params_at};
ghost use Rattle.request_files.specs.Requests.{IsHandler};
ghost use Rattle.live_session.specs.Invoking.{InvokeAnswered};

use crate::accepting::handler;
use crate::acting::acts;
use crate::admission::Admission;
use crate::answers::InvokeError;
use crate::argument::Argument;
use crate::receiving::accept_given;
use crate::running::run_alone;
use crate::session::LiveSession;
use session_values::Reply;

impl LiveSession {
    /// The number of the handler that a line with this first word is for, if there is one. It stays
    /// as long as the session.
    pub fn handler_named(&self, name: &str) -> Option<u32>
        ensures { IsHandler self.now.names self.now.file name.now result }
    {
        handler(self.program.checked(), &self.names, name)
    }

    /// How many parameters a handler has, if there is one of this number.
    pub fn parameters(&self, handler: u32) -> Option<u32>
        ensures { MatchOption result (length self.now.file.handlers ≤ handler)
            (λ n. (handler < length self.now.file.handlers)
            × (n ≡ params_at self.now.file handler)) }
    {
        let checked = self.program.checked();
        if handler < checked.handlers() {
            Some(checked.handler(handler).params)
        } else {
            None
        }
    }

    /// Serves the request of a handler by its number, as the line that has its name and the
    /// arguments' words is served, and answers its reply. No text is parsed: an argument is one
    /// word, whatever its bytes are. A request that isn't served changes nothing.
    pub fn invoke(&mut self, handler: u32, arguments: &[Argument<'_>]) -> Result<Reply, InvokeError>
        ensures { InvokeAnswered self.old handler arguments.now result self.new }
    {
        let by = Admission {
            alloc: self.alloc,
            program: &self.program,
            adds: self.adds.as_slice(),
            most_names: self.most_names,
            tickets: &self.tickets,
        };
        match accept_given(
            by,
            handler,
            arguments,
            &mut self.names,
            &mut self.args.values,
            &mut self.scratch,
            &mut self.tables.parts,
        ) {
            Ok(()) => {}
            Err(why) => return Err(why),
        }
        let number = self.tickets.next();
        let done = acts(&self.program, &number, &handler, &self.args, &self.tables);
        let reply = run_alone(
            self.program.checked(),
            handler,
            self.args.values.as_slice(),
            &mut self.scratch,
            &mut self.tables,
        );
        self.history = self
            .history
            .invoked(&self.program, &self.names, &handler, &self.args, &reply);
        self.tickets.passed(&done);
        Ok(reply)
    }
}
