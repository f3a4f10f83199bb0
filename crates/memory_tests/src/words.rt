use pte_word::{Pte, Strange, leaf_word, read_word, table_word};
use std::alloc::AllocError;

#[test]
fn entries_are_spelled_and_read(rt: HostRuntime) -> Result<(), AllocError> {
    let link = Pte::Table {
        row: 3,
        generation: 2,
    };
    let leaf = Pte::Leaf {
        frame: 1,
        write: false,
        exec: true,
    };
    assert_eq!(rt;
        leaf_word(0, true, true, false, true),
        0x8000_0000_0000_0007
    );
    assert_eq!(rt; leaf_word(5, false, true, true, true), 0);
    assert_eq!(rt; table_word(3, 2), 0x80_3207);
    assert_eq!(rt; read_word(0x80_3207), Ok(link));
    assert_eq!(rt; read_word(0x1005), Ok(leaf));
    let strange = Strange(0x1004);
    assert_eq!(rt; read_word(0x1004), Err(strange));
    assert_eq!(rt;
        format!(in rt.alloc(); "{strange}")?.as_str(),
        "the word 0x1004 is no entry"
    );
    Ok(())
}
