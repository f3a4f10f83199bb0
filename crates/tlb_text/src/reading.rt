//! The lines of events, read.
ghost use Rattle.std.specs.Prelude.{◌≡◌, ◌≢◌, ◌<◌, ◌≤◌, ◌∷◌, ◌++◌, ℕ, List, IfSome, IfNone};
ghost use Rattle.text_words.specs.Spelling.{number};
ghost use Rattle.tlb_core.specs.declared.events.TlbEvent.{TlbEvent};
ghost use Rattle.tlb_core.specs.Answers.{IsEvent};
ghost use Rattle.tlb_text.specs.EventNames.{name_word};
ghost use Rattle.tlb_text.specs.EventText.{event_words, event_line, ReadsNone};

use crate::names::{EventName, event_name};
use mm_script::next_number;
use text_words::Words;
use tlb_core::TlbEvent;

/// How many processors and frames there are.
#[derive(Clone, Copy, Debug, PartialEq, Eq)]
pub(crate) struct Counts {
    pub(crate) cpus: u8,
    pub(crate) frames: u8,
}

/// The number below `limit` that the next word spells.
fn next_below(words: &mut Words<'_>, limit: u8) -> Option<u8>
    ensures found { IfSome result (λ n. (n < limit) × (words.old ≡ number n ∷ words.new)) }
    ensures none { IfNone result ((n : ℕ) (rest : List (List ℕ)) → n < limit → words.old ≢ number n ∷ rest) }
{
    let found = next_number(words)?;
    if found < u64::from(limit) {
        Some(found as u8)
    } else {
        None
    }
}

/// The processor and the page that the next two words spell.
fn next_pair(words: &mut Words<'_>, cpus: u8) -> Option<(u8, u8)>
    ensures found { IfSome result (λ pair. (pair.0 < cpus) × (pair.1 < 64) × (words.old ≡ number pair.0 ∷ number pair.1 ∷ words.new)) }
    ensures none { IfNone result ((cpu page : ℕ) (rest : List (List ℕ)) → cpu < cpus → page < 64 → words.old ≢ number cpu ∷ number page ∷ rest) }
{
    let cpu = next_below(words, cpus)?;
    let page = next_below(words, 64)?;
    Some((cpu, page))
}

/// The event of this name that the next words spell.
fn next_event(words: &mut Words<'_>, name: EventName, counts: Counts) -> Option<TlbEvent>
    ensures found { IfSome result (λ event. IsEvent (record { cpus = counts.cpus; frames = counts.frames }) event
        × (name_word name ∷ words.old ≡ event_words event ++ words.new)) }
    ensures none { IfNone result (ReadsNone (record { cpus = counts.cpus; frames = counts.frames }) name words.old) }
{
    match name {
        EventName::Map => {
            let page = next_below(words, 64)?;
            Some(TlbEvent::Map { page })
        }
        EventName::Unmap => {
            let page = next_below(words, 64)?;
            Some(TlbEvent::Unmap { page })
        }
        EventName::Fill => {
            let (cpu, page) = next_pair(words, counts.cpus)?;
            Some(TlbEvent::Fill { cpu, page })
        }
        EventName::Reach => {
            let (cpu, page) = next_pair(words, counts.cpus)?;
            Some(TlbEvent::Reach { cpu, page })
        }
        EventName::Drop => {
            let (cpu, page) = next_pair(words, counts.cpus)?;
            Some(TlbEvent::Drop { cpu, page })
        }
        EventName::Ack => {
            let cpu = next_below(words, counts.cpus)?;
            Some(TlbEvent::Ack { cpu })
        }
        EventName::Free => {
            let frame = next_below(words, counts.frames)?;
            Some(TlbEvent::Free { frame })
        }
    }
}

/// The event whose line this is.
pub(crate) fn read_event(line: &[u8], counts: Counts) -> Option<TlbEvent>
    requires few { counts.cpus ≤ 8 }
    requires some { counts.frames ≤ 64 }
    ensures found { IfSome result (λ event. IsEvent (record { cpus = counts.cpus; frames = counts.frames }) event × (line.now ≡ event_line event)) }
    ensures none { IfNone result ((event : TlbEvent) → IsEvent (record { cpus = counts.cpus; frames = counts.frames }) event → line.now ≢ event_line event) }
{
    let mut words = Words::of(line);
    let Some(word) = words.next_word() else {
        return None;
    };
    let Some(name) = event_name(word) else {
        return None;
    };
    let Some(event) = next_event(&mut words, name, counts) else {
        return None;
    };
    if words.is_done() { Some(event) } else { None }
}
