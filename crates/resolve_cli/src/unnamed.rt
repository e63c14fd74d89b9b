// The environment of a runtime without the program's name.
use std::env::FillError;
use std::rt::Env;

// The environment of a runtime, where the program's name is empty: its own may be no UTF-8, and nothing asks for it.
#[derive(Drop)]
pub(crate) struct Unnamed<'r, R: Env> {
    pub(crate) rt: &'r R,
}

impl<'r, R: Env> Env for Unnamed<'r, R> {
    fn arg(&self, i: usize, buf: &mut [u8]) -> Result<usize, FillError> {
        if i == 0 {
            return Ok(0);
        }
        self.rt.arg(i, buf)
    }

    fn var(&self, name: &str, buf: &mut [u8]) -> Result<usize, FillError> {
        self.rt.var(name, buf)
    }

    fn var_at(&self, i: usize, buf: &mut [u8]) -> Result<usize, FillError> {
        self.rt.var_at(i, buf)
    }
}
