//! Values under numbers: each is found under its own number alone, until it is taken out.

use hx_numbered::Numbered;
use std::test::Fail;

#[test]
fn each_value_is_found_under_its_number(rt: HostRuntime) -> Result<(), Fail> {
    let mut all: Numbered<char> = Numbered::new(rt.alloc());
    all.reserve(3)?;
    all.insert_reserved(1, 'a');
    all.insert_reserved(5, 'b');
    all.insert_reserved(9, 'c');
    assert_eq!(rt; (all.get(5), all.get(4)), (Some(&'b'), None));
    assert_eq!(rt; (all.number_above(5), all.number_above(9)), (Some(9), None));
    if let Some(value) = all.get_mut(9) {
        *value = 'd';
    }
    assert_eq!(rt; (all.remove(5), all.remove(5)), (Some('b'), None));
    assert_eq!(rt;
        (all.len(), all.get(1), all.get(9)),
        (2, Some(&'a'), Some(&'d'))
    );
    assert_eq!(rt; all.number_above(1), Some(9));
    Ok(())
}
