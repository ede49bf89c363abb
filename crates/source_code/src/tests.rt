use crate::{CodeError, settle};
use dna_items::{BIG, PatItem, TplItem, TplList};
use fuun_base::{BaseList, List, read_dna};
use source_items::{CountedSkip, Factor, Line, Product, SourceItem, Sum};
use std::alloc::Global;
use std::test::Fail;

fn sum(alloc: Global, factors: &[Factor]) -> Result<Sum, Fail> {
    let mut product = Product::new(alloc);
    for factor in factors {
        product.push(*factor)?;
    }
    let mut sum = Sum::new(alloc);
    sum.push(product)?;
    Ok(sum)
}

// The items `(!sum)`.
fn group(alloc: Global, factors: &[Factor]) -> Result<List<SourceItem>, Fail> {
    let mut items = List::new(alloc);
    items.push(SourceItem::Fixed(PatItem::GroupStart))?;
    items.push(SourceItem::Skip(sum(alloc, factors)?))?;
    items.push(SourceItem::Fixed(PatItem::GroupStop))?;
    Ok(items)
}

// The pair `(!sum) -> {0}`.
fn pair(alloc: Global, factors: &[Factor]) -> Result<Line, Fail> {
    let mut template = TplList::new(alloc);
    template.push(TplItem::Group { n: 0, level: 0 })?;
    Ok(Line::Pair {
        pattern: group(alloc, factors)?,
        template,
    })
}

// The pair `(!self)!1 -> {0}{0}`.
fn loop_pair(alloc: Global) -> Result<Line, Fail> {
    let mut pattern = group(alloc, &[Factor::Own])?;
    pattern.push(SourceItem::Fixed(PatItem::Skip(1)))?;
    let mut template = TplList::new(alloc);
    template.push(TplItem::Group { n: 0, level: 0 })?;
    template.push(TplItem::Group { n: 0, level: 0 })?;
    Ok(Line::Pair { pattern, template })
}

fn plain(alloc: Global, letters: &str) -> Result<Line, Fail> {
    Ok(Line::Plain(read_dna(alloc, letters.as_bytes())?))
}

fn letters(alloc: Global, bases: &BaseList) -> Result<Vec<u8>, Fail> {
    let mut text = Vec::new(alloc);
    for base in bases.as_slice() {
        text.push(base.letter())?;
    }
    Ok(text)
}

#[test]
fn lines_are_settled_to_dna(rt: HostRuntime) -> Result<(), Fail> {
    let alloc = rt.alloc();
    let mut twice = Vec::new(alloc);
    twice.push(loop_pair(alloc)?)?;
    twice.push(loop_pair(alloc)?)?;
    let mut label = Vec::new(alloc);
    label.push(pair(alloc, &[Factor::Next(1)])?)?;
    label.push(plain(alloc, "ICFP")?)?;
    label.push(plain(alloc, "P")?)?;
    let mut rest = Vec::new(alloc);
    rest.push(pair(alloc, &[Factor::Rest, Factor::Number(2)])?)?;
    rest.push(plain(alloc, "ICFPP")?)?;
    for (lines, dna) in [
        (
            &twice,
            "IIPIPCIIIICPIICIPCPIICIFPPIFPPIICIIPIPCIIIICPIICIPCPIICIFPPIFPPIIC",
        ),
        (&label, "IIPIPIICPIICIICIFPPIICICFPP"),
        (&rest, "IIPIPICICPIICIICIFPPIICICFPP"),
    ] {
        let code = settle(alloc, lines, 66)?;
        assert_eq!(rt; letters(alloc, &code)?.as_slice(), dna.as_bytes());
    }
    Ok(())
}

#[test]
fn refusals_come_in_order(rt: HostRuntime) -> Result<(), Fail> {
    let alloc = rt.alloc();
    let mut long = Vec::new(alloc);
    long.push(loop_pair(alloc)?)?;
    assert_eq!(rt; settle(alloc, &long, 33).err(), None);
    assert_eq!(rt; settle(alloc, &long, 32).err(), Some(CodeError::TooLong));
    let mut big = Vec::new(alloc);
    big.push(pair(alloc, &[Factor::Number(BIG)])?)?;
    big.push(pair(alloc, &[Factor::Number(BIG), Factor::Rest])?)?;
    assert_eq!(rt;
        settle(alloc, &big, 9).err(),
        Some(CodeError::BadNumber { index: 0 })
    );
    big.push(pair(alloc, &[Factor::Number(BIG / 2), Factor::Number(2)])?)?;
    big.push(pair(alloc, &[Factor::Number(BIG), Factor::Rest])?)?;
    assert_eq!(rt;
        settle(alloc, &big, 9).err(),
        Some(CodeError::BadNumber { index: 2 })
    );
    Ok(())
}

#[test]
fn long_lines_are_only_measured(rt: HostRuntime) -> Result<(), Fail> {
    let alloc = rt.alloc();
    let mut skips = List::new(alloc);
    skips.push(CountedSkip {
        count: BIG / 4,
        sum: sum(alloc, &[Factor::Number(1)])?,
    })?;
    let mut lines = Vec::new(alloc);
    lines.push(pair(alloc, &[Factor::Number(7)])?)?;
    lines.push(Line::Long { skips, len: 0 })?;
    assert_eq!(rt; settle(alloc, &lines, 9).err(), Some(CodeError::TooLong));
    lines.push(pair(alloc, &[Factor::Number(7)])?)?;
    let mut before = Vec::new(alloc);
    before.push(pair(alloc, &[Factor::Rest])?)?;
    before.append(&mut lines)?;
    assert_eq!(rt;
        settle(alloc, &before, 9).err(),
        Some(CodeError::BadNumber { index: 0 })
    );
    Ok(())
}
