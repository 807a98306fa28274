//! What the host sees, with ample memory.

use super::*;
use std::test::Fail;

mod imports;

#[test]
fn the_last_hold_keeps_the_types(rt: HostRuntime) -> Result<(), Fail> {
    let first = VMSharedTypeIndex::new(0);
    let swept = Some(Swept::Removed(1));
    match share(rt.alloc()) {
        Ok(seen) => {
            assert_eq!(rt;
                seen,
                Seen {
                    first,
                    second: first,
                    stays: true,
                    swept
                }
            );
        }
        Err(refusal) => assert!(rt; false, "refused: {refusal:?}"),
    }
    Ok(())
}
