ghost use Rattle.std.specs.Option.{ForSome};
ghost use Rattle.std.specs.Prelude.{◌≡◌, ◌<◌, Some, None, [], false, true, IsSome};
ghost use Rattle.std.specs.Prelude.{map, option_copied, option_map, vec_capacity, vec_len};
ghost use Rattle.pl_sessions.specs.Told.{told};

use crate::fault::ListenFault;
use crate::in_memory::calls::Calls;
use crate::in_memory::door::MemDoor;
use crate::in_memory::visitor::Visitor;
use crate::listener::Listener;
use pl_base::List;
use std::alloc::Global;
use std::sync::OnceToken;

/// A link that was handed back, and who came by it.
#[derive(Drop)]
pub struct Returned<'a, V: Visitor> {
    pub visitor: &'a V,
    pub link: V::Link,
}

/// A handle of a door in memory. It keeps the links that were handed back to it, and what shows that
/// the door was closed where it found it so.
#[derive(Drop)]
pub struct MemListener<'a, V: Visitor> {
    door: &'a MemDoor<V>,
    calls: Calls,
    accepted: u64,
    closed: bool,
    found_closed: bool,
    closing: Option<OnceToken<'a, ()>>,
    out: Option<&'a V>,
    passed: Vec<Returned<'a, V>>,
    ghost room: { IsSome out → vec_len passed < vec_capacity passed },
    ghost shown: { ForSome closing (λ shows. shows.of ≡ door.now.closed.id) },
    ghost found: { found_closed ≡ true → closed ≡ false → IsSome closing },
}

impl<'a, V: Visitor> MemListener<'a, V> {
    /// A handle of a door. The calls of `accept` and `share` whose numbers are listed, counted
    /// together from 1, fail, and so does an `accept` where the door is open and nobody is left to
    /// come.
    pub fn new(alloc: Global, door: &'a MemDoor<V>, failing: List<u64>) -> MemListener<'a, V>
        ensures door { result.door.now ≡ door.entry.now }
        ensures failing { result.calls.failing ≡ failing }
        ensures made { result.calls.made ≡ 0 }
        ensures quiet { result.calls.faults ≡ 0 }
        ensures accepted { result.accepted ≡ 0 }
        ensures open { result.closed ≡ false }
        ensures unfound { result.found_closed ≡ false }
        ensures out { result.out ≡ None }
        ensures passed { result.passed.items ≡ [] }
    {
        MemListener {
            door,
            calls: Calls::new(failing),
            accepted: 0,
            closed: false,
            found_closed: false,
            closing: None,
            out: None,
            passed: Vec::new(alloc),
        }
    }

    /// The links that were handed back, in order.
    pub fn passed(&self) -> &[Returned<'a, V>]
        ensures { result.now ≡ self.now.passed.items }
    {
        self.passed.as_slice()
    }
}

impl<V: Visitor> Listener for MemListener<'_, V> {
    type Link = V::Link;

    ghost tells = { λ handle. record {
      out = option_map V.comes (option_copied handle.out);
      accepted = handle.accepted;
      passed = Some (map (λ returned. record {
        given = V.comes returned.visitor.now;
        left = told V.Link.Link returned.link;
      }) handle.passed.items);
      closed = handle.closed;
      found_closed = handle.found_closed;
      faults = handle.calls.faults;
    } };

    fn accept(&mut self, alloc: Global) -> Result<Option<V::Link>, ListenFault> {
        if self.closing.is_none() {
            self.closing = self.door.closing();
        }
        if self.closed || self.closing.is_some() {
            self.found_closed = true;
            return Ok(None);
        }
        if self.calls.next_fails() {
            return Err(ListenFault::Failed);
        }
        let Some(visitor) = self.door.next() else {
            self.calls.count_fault();
            return Err(ListenFault::Failed);
        };
        self.passed.reserve(1)?;
        let link = visitor.link(alloc)?;
        self.accepted = self.accepted.saturating_add(1);
        self.out = Some(visitor);
        Ok(Some(link))
    }

    fn share(&mut self, alloc: Global) -> Result<Self, ListenFault> {
        if self.calls.next_fails() {
            return Err(ListenFault::Failed);
        }
        Ok(MemListener {
            door: self.door,
            calls: self.calls.anew(alloc)?,
            accepted: 0,
            closed: self.closed,
            found_closed: self.found_closed,
            closing: self.closing.as_ref().map(|shows| shows.again()),
            out: None,
            passed: Vec::new(alloc),
        })
    }

    fn close(&mut self) {
        self.door.close();
        self.closed = true;
    }

    fn link_back(&mut self, link: V::Link) {
        if let Some(visitor) = self.out {
            self.out = None;
            let _there_is_room = self.passed.push(Returned { visitor, link });
        }
    }

    fn faults(&self) -> u64 {
        self.calls.faults()
    }
}
