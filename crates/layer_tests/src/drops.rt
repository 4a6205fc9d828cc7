//! Elements of a list that are dropped, which no clause counts.

use piece_list::PieceList;
use std::alloc::Global;
use std::cell::Cell;
use std::process::Abort;
use std::test::Fail;

/// An element that owns memory, and says when it is dropped.
struct DropCounter<'a> {
    drops: &'a Cell<u32>,
    bytes: Vec<u8>,
}

impl Drop for DropCounter<'_> {
    fn drop(self) {
        self.drops.set(self.drops.get().saturating_add(1));
        let DropCounter { drops: _, bytes } = self;
        drop(bytes);
    }
}

/// Adds an element with bytes of its own.
fn add<'a>(
    alloc: Global,
    list: &mut PieceList<DropCounter<'a>>,
    drops: &'a Cell<u32>,
    number: u8,
) -> Result<(), Fail> {
    list.reserve(1)?;
    let bytes = vec![in alloc; number; 100]?;
    list.push_back(DropCounter { drops, bytes });
    Ok(())
}

/// Adds three elements, and removes the first.
fn add_and_remove<'a>(
    rt: &impl Abort,
    alloc: Global,
    list: &mut PieceList<DropCounter<'a>>,
    drops: &'a Cell<u32>,
) -> Result<(), Fail> {
    for number in 0..3u8 {
        add(alloc, list, drops, number)?;
    }
    list.front();
    assert!(rt; drops.get() == 0);
    drop(list.remove_here());
    assert!(rt; drops.get() == 1);
    assert!(rt;
        list.peek()
            .is_some_and(|element| element.bytes.len() == 100)
    );
    Ok(())
}

#[test]
fn each_element_is_dropped_once(rt: HostRuntime) -> Result<(), Fail> {
    let drops = Cell::new(0);
    {
        let mut list = PieceList::new(rt.alloc());
        add_and_remove(&rt, rt.alloc(), &mut list, &drops)?;
    }
    assert!(rt; drops.get() == 3);
    Ok(())
}
