//! Pages: the worked rows, and a writer and a reader in two threads.
ghost use Rattle.std.specs.Prelude.{◌≡◌, ◌<◌, ◌≤◌, ◌+◌, [], length};
ghost use Rattle.page.specs.Passes as passes;

use crate::CUT;
use page::{Keeps, Page, ReadPass, WritePass};
use std::test::Fail;
use std::thread;

/// Any three words.
#[derive(Drop)]
struct Triples;

impl Keeps for Triples {
    ghost use Rattle.std.specs.Prelude.{◌≡◌, length};

    ghost width = { λ _. 3 };

    ghost fact = { λ _ words. length words ≡ 3 };

    fn stride(&self) -> u32 {
        3
    }

    fn test(&self, words: &[u64]) -> bool {
        words.len() == 3
    }
}

#[test]
fn what_is_read_was_published(rt: HostRuntime) -> Result<(), Fail> {
    let (page, mut write, mut reads) = Page::create(rt.alloc(), Triples, 2, 1)?;
    let mut into = [0; 3];
    let read = &mut reads[0];
    assert!(rt; !page.read(read, 0, &mut into));
    assert!(rt; into == [0, 0, 0]);
    page.publish(&mut write, &[1, 2, 3]);
    assert!(rt; page.read(read, 0, &mut into));
    assert!(rt; into == [1, 2, 3]);
    assert!(rt; !page.read(read, 1, &mut into));
    page.publish(&mut write, &[4, 5, 6]);
    assert!(rt; page.read(read, 1, &mut into));
    assert!(rt; into == [4, 5, 6]);
    assert!(rt; page.read(read, 0, &mut into));
    assert!(rt; into == [1, 2, 3]);
    assert_eq!(rt; page.close(write, reads), 2);
    Ok(())
}

/// Any ten words.
#[derive(Drop)]
struct Tens;

impl Keeps for Tens {
    ghost use Rattle.std.specs.Prelude.{◌≡◌, length};

    ghost width = { λ _. 10 };

    ghost fact = { λ _ words. length words ≡ 10 };

    fn stride(&self) -> u32 {
        10
    }

    fn test(&self, words: &[u64]) -> bool {
        words.len() == 10
    }
}

fn write_all(page: &Page<Tens>, mut pass: WritePass<Tens>, count: u32) -> WritePass<Tens>
    requires ours { passes.IsWriterOf page.now pass × (passes.published pass ≡ []) }
    requires room { count ≤ passes.room_of page.now }
    requires width { passes.stride_of page.now ≡ 10 }
{
    for _ in 0..count {
        page.publish(&mut pass, &CUT);
    }
    pass
}

/// Reads places 0 to `count`, asking again after false, and gives how many items were these words.
fn read_all(page: &Page<Tens>, mut pass: ReadPass<Tens>, count: u32) -> (u32, ReadPass<Tens>)
    requires ours { passes.IsReaderOf page.now pass × (passes.seen pass ≡ []) }
    requires room { count ≤ passes.room_of page.now }
    requires width { passes.stride_of page.now ≡ 10 }
{
    let mut into = [0; 10];
    let mut right = 0;
    let mut i = 0;
    for _ in 0..1_000_000_000u64 {
        if i == count {
            break;
        }
        if page.read(&mut pass, i, &mut into) {
            if into == CUT {
                right += 1;
            }
            i += 1;
        }
    }
    (right, pass)
}

#[test]
fn reads_beside_the_writer(rt: HostRuntime) -> Result<(), Fail> {
    let (page, write, mut reads) = Page::create(rt.alloc(), Tens, 1000, 1)?;
    let read = reads.pop().expect(&rt, "one reader");
    let shared = &page;
    let (_write, (right, _read)) = thread::join(
        &rt,
        move || write_all(shared, write, 1000),
        move || read_all(shared, read, 1000),
    );
    assert_eq!(rt; right, 1000);
    Ok(())
}
