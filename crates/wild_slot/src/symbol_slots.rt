//! The words of a symbol's slots, its stub, and the fault that ended them.
ghost use Rattle.std.specs.Prelude.{◌≡◌, ◌+◌, ◌<◌, ◌≤◌, length};
ghost use Rattle.wild_slot.specs.declared.slot.SlotItem.TheVariants.{Word};
ghost use Rattle.wild_slot.specs.SymbolWords.{slots_of};
ghost use Rattle.wild_slot.specs.Slots.{no_slot, with_item};

use crate::cases::slot_of;
use crate::slot::{MAX_WORDS, Setting, SlotFault, SlotItem, SlotWord};
use crate::stub::distance_if_too_far;
use std::marker::Model;
use wild_types::{Layout, Symbol};

/// The slots of a resolution: their words, whether there is a stub, and the fault that ended them.
#[derive(Drop)]
pub struct SymbolSlots {
    words: [SlotWord; MAX_WORDS],
    count: usize,
    has_stub: bool,
    fault: Option<SlotFault>,
}

impl Model for SymbolSlots {
    ghost use Rattle.std.specs.Prelude.{◌≤◌, take};
    ghost use Rattle.wild_slot.specs.Slots.{SlotContent};

    ghost Value = { SlotContent };

    ghost view = { λ s. record { words = take s.count s.words; has_stub = s.has_stub; fault = s.fault } };

    ghost invariant = { λ s. s.count ≤ 5 };
}

impl SymbolSlots {
    /// The words of a symbol's slots, its stub, and the fault that ended them.
    #[tactic(auto, unfolding(crate::specs::SymbolWords::slots_of))]
    pub fn of(layout: &Layout, symbol: &Symbol) -> SymbolSlots
        ensures { result ≡ slots_of layout.now symbol.now }
    {
        match &symbol.resolution {
            Some(resolution) => {
                let far = distance_if_too_far(layout, resolution);
                slot_of(&Setting::of(layout), far, resolution)
            }
            None => SymbolSlots::empty(),
        }
    }

    /// No word and no stub.
    pub(crate) fn empty() -> SymbolSlots
        ensures { result ≡ no_slot }
    {
        SymbolSlots {
            words: [SlotWord::Number(0); MAX_WORDS],
            count: 0,
            has_stub: false,
            fault: None,
        }
    }

    /// Adds a word.
    fn add_word(&mut self, word: SlotWord)
        requires few { length self.old.words < 5 }
        requires none { self.old.fault ≡ None }
        ensures { self.new ≡ with_item self.old (Word word) }
    {
        self.words[self.count] = word;
        self.count += 1;
    }

    /// Adds an item, unless there is a fault already.
    pub(crate) fn add(&mut self, item: SlotItem)
        requires { length self.old.words < 5 }
        ensures added { self.new ≡ with_item self.old item }
        ensures few { length self.new.words ≤ length self.old.words + 1 }
    {
        if self.fault.is_some() {
            return;
        }
        match item {
            SlotItem::Word(word) => self.add_word(word),
            SlotItem::Stub => self.has_stub = true,
            SlotItem::Fault(fault) => self.fault = Some(fault),
        }
    }

    /// The words. They are consecutive from the symbol's slot on, 8 bytes each.
    pub fn words(&self) -> &[SlotWord]
        ensures words { result.now ≡ self.now.words }
        ensures few { length result.now ≤ 5 }
    {
        &self.words[..self.count]
    }

    /// Whether there is a stub.
    pub fn has_stub(&self) -> bool
        ensures { result ≡ self.now.has_stub }
    {
        self.has_stub
    }

    /// The fault that ended the words.
    pub fn fault(&self) -> Option<SlotFault>
        ensures { result ≡ self.now.fault }
    {
        self.fault
    }
}
