use crate::{
    is_readable, pattern_item_len, put_pair, put_pattern_item, put_template_item, template_item_len,
};
use dna_items::{PatItem, PatList, TplItem, TplList};
use fuun_base::{Base, BaseList};
use std::alloc::Global;
use std::test::Fail;

fn pattern(alloc: Global) -> Result<PatList, Fail> {
    let mut search = BaseList::new(alloc);
    search.push(Base::P)?;
    let mut items = PatList::new(alloc);
    items.push(PatItem::GroupStart)?;
    items.push(PatItem::Skip(2))?;
    items.push(PatItem::GroupStop)?;
    items.push(PatItem::Base(Base::P))?;
    items.push(PatItem::Search(search))?;
    Ok(items)
}

fn template(alloc: Global) -> Result<TplList, Fail> {
    let mut items = TplList::new(alloc);
    items.push(TplItem::Base(Base::P))?;
    items.push(TplItem::Group { n: 2, level: 0 })?;
    items.push(TplItem::Len(1))?;
    Ok(items)
}

#[test]
fn a_pair_is_written_as_dna(rt: HostRuntime) -> Result<(), Fail> {
    let alloc = rt.alloc();
    let pattern = pattern(alloc)?;
    let mut dna = Vec::new(alloc);
    put_pair(&pattern, &template(alloc)?, &mut dna)?;
    let mut text = Vec::new(alloc);
    for base in &dna {
        text.push(base.letter())?;
    }
    assert_eq!(rt;
        text.as_slice(),
        "IIPIPICPIICICIFFICIICICIFPICPIIPCPIIC".as_bytes()
    );
    assert_eq!(rt; is_readable(&pattern), true);
    Ok(())
}

#[test]
fn items_are_as_long_as_their_codes(rt: HostRuntime) -> Result<(), Fail> {
    let alloc = rt.alloc();
    for item in pattern(alloc)?.as_slice() {
        let mut code = Vec::new(alloc);
        put_pattern_item(item, &mut code)?;
        assert_eq!(rt; code.len() as u64, pattern_item_len(item));
    }
    for item in template(alloc)?.as_slice() {
        let mut code = Vec::new(alloc);
        put_template_item(*item, &mut code)?;
        assert_eq!(rt; code.len() as u64, template_item_len(*item));
    }
    Ok(())
}
