// One command of a sheet: 1 for the command byte, 2, 1 for operands.
ghost use Rattle.std.specs.Prelude.{◌≡◌, eqb, drop};
ghost use Rattle.format.specs.Sheet.{takes_labels};
ghost use Rattle.sheet_commands.specs.Step.{byte_of, IsKindOf, code_of, Codes, placed, command_of, pair_of, step_at, width};

use format::{Form, Refusal};

#[derive(Clone, Copy)]
pub enum Command {
    Nodes(u8),
    Tree(u8, u8),
    Dominance(u8, u8),
    Label(u8, u8),
    Differ,
    End,
}

// What a command byte says.
#[derive(Clone, Copy)]
enum Kind {
    Nodes,
    Tree,
    Dominance,
    Label,
    Differ,
    End,
}

// 2: an unknown byte.
impl TryFrom<u8> for Kind {
    type Error = Refusal;

    ghost try_from_gives = { Codes };

    fn try_from(byte: u8) -> Result<Kind, Refusal>
        ensures { Codes byte result }
    {
        match byte {
            0 => Ok(Kind::End),
            1 => Ok(Kind::Nodes),
            2 => Ok(Kind::Tree),
            3 => Ok(Kind::Dominance),
            5 => Ok(Kind::Label),
            6 => Ok(Kind::Differ),
            _ => Err(Refusal::Command),
        }
    }
}

impl Command {
    // How many bytes it has.
    pub(crate) fn width(self) -> usize
        ensures { result ≡ width self }
    {
        match self {
            Command::Differ | Command::End => 1,
            Command::Nodes(_) => 2,
            Command::Tree(_, _) | Command::Dominance(_, _) | Command::Label(_, _) => 3,
        }
    }
}

// 1: a needed byte is missing.
fn needed(sheet: &[u8], at: usize) -> Result<u8, Refusal>
    ensures { result ≡ byte_of (drop at sheet.now) }
{
    let Some(byte) = sheet.get(at) else {
        return Err(Refusal::Missing);
    };
    Ok(*byte)
}

// 0x05 and 0x06 are in place in a labelled sheet.
fn takes_labels(form: Form) -> bool
    ensures { result ≡ takes_labels form }
{
    match form {
        Form::Plain => false,
        Form::Labelled => true,
    }
}

// 0x01 comes first, 0x02, 0x03 and those of labels after it, 0x00 last.
#[tactic(auto, unfolding(crate::specs::Step::placed, format::specs::Sheet::takes_two, format::specs::Sheet::takes_none))]
fn in_place(form: Form, kind: Kind, at: usize, left: usize) -> bool
    ensures { result ≡ placed form (eqb at 0) (code_of kind) left }
{
    if at == 0 {
        return matches!(kind, Kind::Nodes);
    }
    match kind {
        Kind::Nodes => false,
        Kind::Tree | Kind::Dominance => true,
        Kind::Label => takes_labels(form),
        Kind::Differ => takes_labels(form),
        Kind::End => left == 1,
    }
}

// The command byte: 1, then 2.
fn kind_at(form: Form, sheet: &[u8], at: usize) -> Result<Kind, Refusal>
    ensures { IsKindOf (command_of form (eqb at 0) (drop at sheet.now)) result }
{
    let byte = needed(sheet, at)?;
    let kind = Kind::try_from(byte)?;
    if in_place(form, kind, at, sheet.len() - at) {
        Ok(kind)
    } else {
        Err(Refusal::Command)
    }
}

// The two operands from `at` on: 1.
fn operands(sheet: &[u8], at: usize) -> Result<(u8, u8), Refusal>
    ensures { result ≡ pair_of (drop at sheet.now) }
{
    let first = needed(sheet, at)?;
    let second = needed(sheet, at + 1)?;
    Ok((first, second))
}

pub(crate) fn command_at(form: Form, sheet: &[u8], at: usize) -> Result<Command, Refusal>
    ensures { result ≡ step_at form sheet.now at }
{
    let kind = kind_at(form, sheet, at)?;
    let from = at + 1;
    match kind {
        Kind::Nodes => Ok(Command::Nodes(needed(sheet, from)?)),
        Kind::Tree => {
            let (p, c) = operands(sheet, from)?;
            Ok(Command::Tree(p, c))
        }
        Kind::Dominance => {
            let (l, r) = operands(sheet, from)?;
            Ok(Command::Dominance(l, r))
        }
        Kind::Label => {
            let (p, s) = operands(sheet, from)?;
            Ok(Command::Label(p, s))
        }
        Kind::Differ => Ok(Command::Differ),
        Kind::End => Ok(Command::End),
    }
}
