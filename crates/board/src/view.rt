ghost use Rattle.std.specs.Prelude.{ℕ, List, Bool, Option};
ghost use Rattle.std.specs.Borrow.{ftrue};
ghost use Rattle.pipe_model.specs.declared.net.Net.{Net};
ghost use Rattle.pipe_model.specs.declared.step.Entry.{Entry};
ghost use Rattle.core_machine.specs.Machine.{Machine};

use std::marker::Model;

/// What a pass knows. No value of it is made.
pub struct View {
    /// The board's net.
    pub ghost net: { Net },
    /// The most entries of the journal.
    pub ghost budget: { ℕ },
    /// The journal, as far as the pass saw it.
    pub ghost seen: { List Entry },
    /// A beginning of what was seen: the shorter list of the two views that were joined last.
    pub ghost told: { List Entry },
    /// The places of the entries that the pass made, counted from 1.
    pub ghost mine: { List ℕ },
    /// The places of those whose jobs it brought home.
    pub ghost home: { List ℕ },
    /// The places of those whose finish lacked memory.
    pub ghost lost: { List ℕ },
    /// The places of the jobs that were out when it last saw the core.
    pub ghost out: { List ℕ },
    /// Whether the core was broken then.
    pub ghost is_broken: { Bool },
    /// How often the core had been given back then, by whomever.
    pub ghost turn: { ℕ },
    /// How often this pass gave it back.
    pub ghost holds: { ℕ },
    /// The sum of what it found in the turn word when it gave the core back.
    pub ghost used: { ℕ },
    /// Its part of the 4,294,967,296 shares.
    pub ghost shares: { ℕ },
    /// How often it may still take the slot.
    pub ghost tries: { ℕ },
    /// The core and its number, while the slot is out with this view, as the last step left them.
    pub ghost held: { Option (Machine × ℕ) },
}

impl Model for View {
    ghost also_owns = { λ _. ftrue };
}
