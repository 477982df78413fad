// The labels of a labelled sheet, one command after the other. Its commands are judged elsewhere: one that is refused only ends this.
ghost use Rattle.format.specs.declared.Form.TheVariants.{Labelled};
ghost use Rattle.sheet_commands.specs.Labels.{labels_in};
ghost use Rattle.sheet_labels.specs.Keep.{Keeps};

use crate::table::Labels;
use format::Form;
use sheet_commands::command::Command;
use sheet_commands::reader::Reader;

pub fn labels_of(sheet: &[u8]) -> Labels
    ensures { Keeps (labels_in Labelled sheet.now) result }
{
    let mut labels = Labels::none();
    // Past the first command.
    let mut reader = Reader {
        sheet,
        at: 2,
        form: Form::Labelled,
    };
    while let Ok(command) = reader.next() {
        match command {
            Command::Tree(_, _) | Command::Dominance(_, _) => {}
            Command::Label(p, s) => {
                if 128 <= p {
                    break;
                }
                labels.label(p as usize, s);
            }
            Command::Differ => labels.differing(),
            Command::Nodes(_) | Command::End => break,
        }
    }
    labels
}
