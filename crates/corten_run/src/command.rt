//! The words of the command line.
ghost use Rattle.std.specs.Prelude.{◌≡◌, ◌≢◌, ◌≤◌, ℕ, map, IfSome, IfNone};
ghost use Rattle.std.specs.String.{string_bytes};
ghost use Rattle.text_words.specs.Spelling.{number};
ghost use Rattle.mm_script.specs.CallLine.{IsSpace, IsWithin};
ghost use Rattle.corten_run.specs.Commands.{Names, level_count};
ghost use Rattle.corten_run.specs.Commands as definitions;
ghost use Rattle.corten_run.specs.declared.command.Command.{Command};

use corten_base::SpaceId;
use text_words::read_number;

/// How many levels the page tables have.
#[derive(Clone, Copy, Debug, PartialEq, Eq)]
pub enum Levels {
    Four,
    Five,
}

impl Levels {
    /// Their number.
    pub fn number(self) -> u8
        ensures { result ≡ level_count self }
    {
        match self {
            Levels::Four => 4,
            Levels::Five => 5,
        }
    }
}

/// What the program is told to do.
#[derive(Clone, Copy, Debug, PartialEq, Eq)]
pub enum Command {
    /// Reads a script and runs it on the plain machine, with page tables of so many levels.
    Solo(Levels),
    /// Reads a history and says whether it is legal.
    Check,
    /// Reads a history and says which pages should go to swap first, at most so many.
    Victims(u16),
    /// Reads events of translation caches and answers each.
    Tlb,
    /// Reads a history and writes the image of this space.
    Save(SpaceId),
    /// Reads an image and writes a history that builds it.
    Restore,
}

/// The number from 1 to `most` that a word spells.
fn read_count(word: &[u8], most: u16) -> Option<u16>
    requires { most ≤ 4096 }
    ensures found { IfSome result (λ n. IsWithin 1 most n × (word.now ≡ number n)) }
    ensures none { IfNone result ((n : ℕ) → IsWithin 1 most n → word.now ≢ number n) }
{
    let found = read_number(word)?;
    if found == 0 {
        return None;
    }
    if found <= u64::from(most) {
        Some(found as u16)
    } else {
        None
    }
}

/// The space whose number a word spells.
fn read_space(word: &[u8]) -> Option<SpaceId>
    ensures found { IfSome result (λ space. IsSpace space × (word.now ≡ number space)) }
    ensures none { IfNone result ((space : ℕ) → IsSpace space → word.now ≢ number space) }
{
    let found = read_number(word)?;
    if found < 64 {
        SpaceId::new(found as u8)
    } else {
        None
    }
}

/// The command that the words after the program's name spell.
pub fn read_command(words: &[String]) -> Option<Command>
    ensures found { IfSome result (Names (map string_bytes words.now)) }
    ensures none { IfNone result ((command : Command)
        → ¬ (Names (map string_bytes words.now) command)) }
{
    match words {
        [word] if word.as_str() == "solo" => Some(Command::Solo(Levels::Four)),
        [word] if word.as_str() == "check" => Some(Command::Check),
        [word] if word.as_str() == "tlb" => Some(Command::Tlb),
        [word] if word.as_str() == "restore" => Some(Command::Restore),
        [word, levels] if word.as_str() == "solo" && levels.as_str() == "5" => {
            Some(Command::Solo(Levels::Five))
        }
        [word, most] if word.as_str() == "victims" => {
            Some(Command::Victims(read_count(most.as_str().as_bytes(), 4096)?))
        }
        [word, space] if word.as_str() == "save" => {
            Some(Command::Save(read_space(space.as_str().as_bytes())?))
        }
        _ => None,
    }
}

/// The bytes that the text which a command reads may have.
pub fn greatest_length(command: &Command) -> usize
    ensures { result ≡ definitions.greatest_length command.now }
{
    match command {
        Command::Solo(_) => 4_194_304,
        Command::Check | Command::Victims(_) | Command::Save(_) => 67_108_864,
        Command::Tlb => 4_194_304,
        Command::Restore => 134_217_728,
    }
}
