use hs_base::Txt;
use hs_index::Index;
use std::test::Fail;

#[test]
fn the_first_of_equal_names_is_found(rt: HostRuntime) -> Result<(), Fail> {
    let f = Txt::of(rt.alloc(), "f")?;
    let g = Txt::of(rt.alloc(), "g")?;
    let missing = Txt::of(rt.alloc(), "h")?;
    let mut index = Index::new(rt.alloc());
    index.add(rt.alloc(), &f)?;
    index.add(rt.alloc(), &g)?;
    index.add(rt.alloc(), &f)?;
    assert_eq!(rt; index.count, 3);
    assert_eq!(rt; index.first(&f), Some(0));
    assert_eq!(rt; index.first(&g), Some(1));
    assert_eq!(rt; index.first(&missing), None);
    Ok(())
}
