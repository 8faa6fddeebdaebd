// Small handlers that are made by chance, as text.

ghost use Rattle.std.specs.Prelude.{◌<◌};

use std::alloc::Global;
use std::test::Fail;

/// A source of numbers, and how many loops it has made.
#[derive(Drop)]
pub(crate) struct Made {
    pub(crate) state: u64,
    pub(crate) loops: u64,
}

impl Made {
    fn number(&mut self, below: u64) -> u64
        requires { 0 < below }
    {
        self.state = self
            .state
            .wrapping_mul(6364136223846793005)
            .wrapping_add(1442695040888963407);
        (self.state >> 33) % below
    }

    /// Appends an argument: a variable, of a loop too where the statement stands in one, or a
    /// literal.
    fn put_argument(&mut self, is_inside: bool, out: &mut String) -> Result<(), Fail> {
        match self.number(6) {
            0 | 1 => out.push_str("a")?,
            2 | 3 => out.push_str("b")?,
            4 if is_inside => write!(out, "i{}", self.loops)?,
            n => write!(out, "{n}")?,
        }
        Ok(())
    }

    /// Appends a statement without a block.
    fn put_simple(&mut self, is_inside: bool, out: &mut String) -> Result<(), Fail> {
        let (start, end) = match self.number(8) {
            0 => ("put(m, a, ", ");\n"),
            1 => ("put(m, b, ", ");\n"),
            2 => ("get(m, ", ");\n"),
            3 => ("a = ", ";\n"),
            4 => ("b = ", ";\n"),
            5 => ("a = get(m, ", ");\n"),
            6 => ("b = a + ", ";\n"),
            _ => ("del(m, ", ");\n"),
        };
        out.push_str(start)?;
        self.put_argument(is_inside, out)?;
        out.push_str(end)?;
        Ok(())
    }
}

impl Made {
    /// Appends some statements without a block.
    fn put_simples(&mut self, is_inside: bool, out: &mut String) -> Result<(), Fail> {
        for _ in 0..self.number(3) {
            self.put_simple(is_inside, out)?;
        }
        Ok(())
    }

    /// Appends a choice.
    fn put_choice(&mut self, is_inside: bool, out: &mut String) -> Result<(), Fail> {
        out.push_str("if a == b {\n")?;
        self.put_simples(is_inside, out)?;
        if self.number(4) == 0 {
            out.push_str("reply a;\n")?;
        }
        out.push_str("} else {\n")?;
        self.put_simples(is_inside, out)?;
        out.push_str("}\n")?;
        Ok(())
    }

    /// Appends the start of a loop.
    fn put_loop(&mut self, out: &mut String) -> Result<(), Fail> {
        self.loops = self.loops.wrapping_add(1);
        write!(out, "repeat 2 as i{} {{\n", self.loops)?;
        Ok(())
    }

    /// Appends a loop with a choice or a loop in it.
    fn put_nested(&mut self, out: &mut String) -> Result<(), Fail> {
        self.put_loop(out)?;
        self.put_simples(true, out)?;
        match self.number(3) {
            0 => self.put_choice(true, out)?,
            1 => {
                self.put_loop(out)?;
                self.put_simples(true, out)?;
                out.push_str("}\n")?;
                self.put_simples(false, out)?;
            }
            _ => {}
        }
        out.push_str("}\n")?;
        Ok(())
    }

    /// A file with one handler.
    pub(crate) fn file(&mut self, alloc: Global) -> Result<String, Fail> {
        let mut out = String::from_str(alloc, "map m;\nhandler f(a, b) {\n")?;
        self.put_simples(false, &mut out)?;
        if self.number(2) == 0 {
            self.put_choice(false, &mut out)?;
        }
        self.put_nested(&mut out)?;
        self.put_simples(false, &mut out)?;
        out.push_str("}\n")?;
        Ok(out)
    }
}
