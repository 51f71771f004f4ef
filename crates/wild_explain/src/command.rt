//! The commands of the program.
ghost use Rattle.std.specs.Prelude.{◌≡◌, MatchOption, codes};
ghost use Rattle.wild_explain.specs.Explain.{IsPlain, IsOneWord, Asks};

/// The options of `explain`.
#[derive(Clone, Copy)]
pub struct View {
    /// Explain all faults that do not depend on each other, after the first one.
    pub all: bool,
    /// List what each relocation wrote.
    pub relocations: bool,
    /// Find the owner of the byte at this offset of the file.
    pub byte: Option<u64>,
}

/// A command.
#[derive(Clone, Copy)]
pub enum Command {
    /// Say why the plan's layout has no image, or what its image contains.
    Explain(View),
    /// Say how many bytes of each part each group needs.
    Needs,
}

/// No options.
const NO_OPTIONS: View = View {
    all: false,
    relocations: false,
    byte: None,
};

/// Parses the options of `explain`, if these words are options; the word after `--byte` is an offset.
fn view_of(options: &[String]) -> Option<View> {
    let mut view = NO_OPTIONS;
    let mut is_offset = false;
    for option in options {
        let word = option.as_str();
        if is_offset {
            view.byte = Some(word.parse::<u64>().ok()?);
            is_offset = false;
        } else if word == "--first" {
            view.all = false;
        } else if word == "--all" {
            view.all = true;
        } else if word == "--relocations" {
            view.relocations = true;
        } else if word == "--byte" {
            is_offset = true;
        } else {
            return None;
        }
    }
    if is_offset { None } else { Some(view) }
}

/// The command that one word is, if it is one.
fn plain_command(word: &str) -> Option<Command>
    ensures { MatchOption result ((word.now ≡ codes "explain" → ⊥) × (word.now ≡ codes "needs" → ⊥)) (IsOneWord word.now) }
{
    if word == "explain" {
        Some(Command::Explain(NO_OPTIONS))
    } else if word == "needs" {
        Some(Command::Needs)
    } else {
        None
    }
}

/// The command that the words are, if they are one.
pub fn command_of(words: &[String]) -> Option<Command>
    ensures { MatchOption result (IsPlain words.now → ⊥) (Asks words.now) }
{
    match words {
        [name] => plain_command(name.as_str()),
        [name, _, ..] => {
            if name.as_str() != "explain" {
                return None;
            }
            let view = view_of(&words[1..])?;
            Some(Command::Explain(view))
        }
        [] => None,
    }
}
