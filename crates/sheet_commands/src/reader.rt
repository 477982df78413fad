// The lent bytes of a sheet, an offset into them, and the sheet's form.
ghost use Rattle.std.specs.Prelude.{◌≡◌};
ghost use Rattle.sheet_commands.specs.Reader.{taken_by, moved_on};

use crate::command::{Command, command_at};
use format::{Form, Refusal};

#[derive(Clone, Copy)]
pub struct Reader<'a> {
    pub sheet: &'a [u8],
    pub at: usize,
    pub form: Form,
}

impl<'a> Reader<'a> {
    // The command at the offset, which is passed. One that is refused is not. Every command goes through here: a call of its own
    // would cost as much as the command.
    #[inline(always)]
    pub fn next(&mut self) -> Result<Command, Refusal>
        ensures taken { result ≡ taken_by self.old }
        ensures moved { self.new ≡ moved_on self.old result }
    {
        let command = command_at(self.form, self.sheet, self.at)?;
        self.at += command.width();
        Ok(command)
    }
}
