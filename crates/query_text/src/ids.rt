ghost use Rattle.std.specs.Prelude.{◌≡◌, ◌==◌, ◌||◌, ℕ, false, IfErr, OnOk};
ghost use Rattle.std.specs.List.{list_any};
ghost use Rattle.std.specs.Ordering.{nat_cmp};
ghost use Rattle.std.specs.BTreeSet.{contains};
ghost use Rattle.query_text.specs.Known.{NextIsAbove, is_known};

use query_model::InputFault;
use std::alloc::Global;
use std::collections::BTreeSet;

/// The ids of the documents so far. As long as each is above all before it, none is looked up.
#[derive(Drop)]
pub struct Ids {
    /// Those that came since the last one that wasn't above all before it. They ascend.
    rising: Vec<u32>,
    /// All others.
    others: BTreeSet<u32>,
    /// One above the greatest.
    next: u64,
}

impl Ids {
    /// No ids.
    pub fn new(alloc: Global) -> Ids
        ensures none { (id : ℕ) → is_known result id ≡ false }
        ensures above { NextIsAbove result }
    {
        Ids {
            rising: Vec::new(alloc),
            others: BTreeSet::new(alloc),
            next: 0,
        }
    }

    /// Whether an id is one of them.
    pub fn has(&self, id: u32) -> bool
        requires { NextIsAbove self.now }
        ensures { result ≡ is_known self.now id }
    {
        u64::from(id) < self.next && (self.rising.contains(&id) || self.others.contains(&id))
    }

    /// Puts one more to them. Each one moves to the others at most once, so that a search among the rising ones is paid for.
    pub fn put(&mut self, id: u32) -> Result<(), InputFault>
        requires { NextIsAbove self.old }
        ensures ok { OnOk result ((other : ℕ) → is_known self.new other ≡ (is_known self.old other || id == other)) }
        ensures above { OnOk result (NextIsAbove self.new) }
        ensures err { IfErr result (λ fault. fault ≡ InputFault.Memory) }
    {
        if u64::from(id) < self.next {
            put_all(&mut self.others, self.rising.as_slice())?;
            self.rising.clear();
            self.others.insert(id)?;
        } else {
            self.rising.push(id)?;
            self.next = u64::from(id) + 1;
        }
        Ok(())
    }
}

/// Puts ids into a set.
fn put_all(set: &mut BTreeSet<u32>, ids: &[u32]) -> Result<(), InputFault>
    ensures ok { OnOk result ((id : ℕ) →
        contains nat_cmp set.new id ≡ (contains nat_cmp set.old id || list_any (λ known. known == id) ids.now)) }
    ensures err { IfErr result (λ fault. fault ≡ InputFault.Memory) }
{
    for id in ids {
        set.insert(*id)?;
    }
    Ok(())
}
