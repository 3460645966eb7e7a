// Who may write.
ghost use Rattle.std.specs.Prelude.{◌≡◌};
ghost use Rattle.parts.specs.Guards.{first_protected, may_store, may_keep};

use crate::figures::Figure;

// Why a whole byte is held back.
#[derive(Clone, Copy)]
pub enum Reason {
    LatchOff,
    Protect,
    Block,
}

// The first address that the block bits BP1 and BP0 guard; the size where they guard none.
#[tactic(auto, unfolding(crate::specs::Guards::first_protected))]
pub fn first_protected(f: Figure, kept: u8) -> usize
    ensures { result ≡ first_protected f kept }
{
    let bp1 = kept & f.bp1 != 0;
    let bp0 = kept & f.bp0 != 0;
    let guarded = if bp1 {
        if bp0 { f.size } else { f.size / 2 }
    } else {
        if bp0 { f.size / 4 } else { 0 }
    };
    f.size - guarded
}

// Whether a whole memory byte may be stored; the lowest reason where not.
#[tactic(auto, unfolding(crate::specs::Guards::may_store))]
pub fn may_store(f: Figure, latch: bool, kept: u8, wp: bool, at: usize) -> Result<(), Reason>
    ensures { result ≡ may_store f latch kept wp at }
{
    let first = first_protected(f, kept);
    if !latch {
        return Err(Reason::LatchOff);
    }
    if f.guards_array & !wp {
        return Err(Reason::Protect);
    }
    if first <= at {
        return Err(Reason::Block);
    }
    Ok(())
}

// Whether a whole status byte may be kept; blocks don't guard it.
#[tactic(auto, unfolding(crate::specs::Guards::may_keep))]
pub fn may_keep(f: Figure, latch: bool, kept: u8, wp: bool) -> Result<(), Reason>
    ensures { result ≡ may_keep f latch kept wp }
{
    if !latch {
        return Err(Reason::LatchOff);
    }
    let enabled = kept & f.enable == f.enable;
    if enabled & !wp {
        return Err(Reason::Protect);
    }
    Ok(())
}
