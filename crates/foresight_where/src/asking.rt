// What the program is asked to tell.

use refusal_advice::Form;

/// The form, and the name of the file that was refused.
#[derive(Clone, Copy, Debug)]
pub(crate) struct Asked<'a> {
    pub(crate) form: Form,
    pub(crate) name: &'a str,
}
