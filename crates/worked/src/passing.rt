// Printing that passes over what can't be written.
use std::fmt::Display;
use std::io;

// What prints, but for what can't be written, which is passed over: what the program has to tell is what it prints.
#[derive(Drop)]
pub(crate) struct PassingOver<P>(pub(crate) P);

impl<P: Print> Print for PassingOver<P> {
    fn print<D: Display + Drop>(&self, value: D) -> io::Result<()> {
        let _ = self.0.print(value);
        Ok(())
    }

    fn println<D: Display + Drop>(&self, value: D) -> io::Result<()> {
        let _ = self.0.println(value);
        Ok(())
    }

    fn write_all(&self, bytes: &[u8]) -> io::Result<()> {
        let _ = self.0.write_all(bytes);
        Ok(())
    }
}
