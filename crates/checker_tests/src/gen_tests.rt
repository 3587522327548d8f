//! Decks made from a number that are known.

use deck_gen::deck;
use std::test::Fail;

#[test]
fn gives_known_decks(rt: HostRuntime) -> Result<(), Fail> {
    let seven = deck(rt.alloc(), 7, 2, 1, 1)?;
    assert_eq!(rt;
        seven.as_slice(),
        b"NAME gen-7-2-1-1\nROWS\n N cost\n G r1\nCOLUMNS\n x1 cost 6\n x1 r1 9\n x2 cost 6\n x2 r1 5\nRHS\n rhs r1 12\nPAIRS\n p1 COL x1 COL x2\nENDATA\n".as_slice()
    );
    let zero = deck(rt.alloc(), 24, 1, 1, 0)?;
    assert_eq!(rt;
        zero.as_slice(),
        b"NAME gen-24-1-1-0\nROWS\n N cost\n G r1\nCOLUMNS\n x1 cost 3\nRHS\n rhs r1 5\nENDATA\n".as_slice()
    );
    Ok(())
}
