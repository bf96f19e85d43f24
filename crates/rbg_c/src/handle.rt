//! A handle: a state on the heap behind a pointer that C holds, or none.
ghost use Rattle.std.specs.Prelude.{◌≡◌, Option, None, Some};
ghost use Rattle.std.specs.Coded.{coded_option};
ghost use Rattle.std.specs.Option.{MatchOption};
ghost use Rattle.rbg_c.specs.Codes.{coded_state};
ghost use Rattle.rbg_c.specs.States.{AbstractState};

use crate::loose::Loose;
use crate::state::State;
use std::alloc::Global;
use std::marker::Model;
use std::mem::replace;
use std::ptr::null_mut;

/// What C holds of a state: `rbg_state` in the header. Contracts see the state, or that there is none.
#[repr(C)]
#[derive(Drop)]
pub struct Handle {
    /// Null where there is no state, and else where the state lies. C doesn't look there.
    pub inside: *mut u8,
    pub ghost value: { Option AbstractState } by { coded_option coded_state },
}

impl Model for Handle {
    ghost use Rattle.rbg_c.specs.Held.{held};

    ghost also_owns = { λ h. held h.inside h.value };
}

impl Handle {
    /// A handle of no state.
    pub(crate) fn empty() -> Handle
        ensures { result.value ≡ None }
    {
        Handle { inside: null_mut() }
    }

    /// A handle of a state, from its pointer.
    fn of_loose(loose: Loose<State, Global>) -> Handle
        ensures { result.value ≡ Some loose.value }
    {
        let Loose { at, alloc: _ } = loose;
        Handle {
            inside: at as *mut u8,
        }
    }

    /// The pointer to the state, if there is one.
    fn into_loose(self, alloc: Global) -> Option<Loose<State, Global>>
        ensures { MatchOption result (self.value ≡ None) (λ loose. self.value ≡ Some loose.value) }
    {
        let Handle { inside } = self;
        if inside.is_null() {
            None
        } else {
            Some(Loose {
                at: inside as *mut State,
                alloc,
            })
        }
    }

    /// A handle of a state.
    pub(crate) fn of(state: Box<State>) -> Handle
        ensures { result.value ≡ Some state.value }
    {
        Handle::of_loose(Loose::of(state))
    }

    /// The state, if there is one.
    fn into_box(self, alloc: Global) -> Option<Box<State>>
        ensures { MatchOption result (self.value ≡ None) (λ state. self.value ≡ Some state.value) }
    {
        match self.into_loose(alloc) {
            Some(loose) => Some(loose.into_box()),
            None => None,
        }
    }

    /// Takes the state, if there is one, and leaves none.
    pub(crate) fn take(&mut self, alloc: Global) -> Option<Box<State>>
        ensures taken { MatchOption result (self.old.value ≡ None)
            (λ state. self.old.value ≡ Some state.value) }
        ensures left { self.new.value ≡ None }
    {
        replace(self, Handle::empty()).into_box(alloc)
    }

    /// Puts a state there.
    pub(crate) fn put(&mut self, state: Box<State>)
        ensures { self.new.value ≡ Some state.value }
    {
        *self = Handle::of(state);
    }
}
