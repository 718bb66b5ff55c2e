// The lines of a book's scenes, written to memory.
use super::{Stop, write_scenes};
use book::{Book, Head, Literal};
use scale::Luk;
use std::test::Fail;

#[test]
fn two_lamps(rt: HostRuntime) -> Result<(), Fail> {
    let heap = rt.alloc();
    let mut book = Book::new(heap)?;
    assert!(rt; book.make(5, 2).is_ok());
    assert!(rt;
        book.enter(Head::Statement(0), 4, &[Literal::Lacking(1)])
            .is_ok()
    );
    assert!(rt;
        book.enter(Head::Statement(1), 4, &[Literal::Lacking(0)])
            .is_ok()
    );
    let scale = Luk::new(4).map_err(|_| Fail::new("the scale was refused"))?;
    let mut lines = Vec::new(heap);
    assert!(rt; write_scenes(&mut lines, &scale, &book).is_ok());
    let expected = b"4 1 0 4\n8 1 1 3\n12 1 2 2\n16 1 3 1\n20 1 4 0\nscenes 5\n";
    assert!(rt; lines.as_slice() == expected.as_slice());
    Ok(())
}

#[test]
fn scale_of_other_levels(rt: HostRuntime) -> Result<(), Fail> {
    let heap = rt.alloc();
    let book = Book::new(heap)?;
    let scale = Luk::new(4).map_err(|_| Fail::new("the scale was refused"))?;
    let mut lines = Vec::new(heap);
    let answer = write_scenes(&mut lines, &scale, &book);
    assert!(rt; matches!(answer, Err(Stop::Refused(_))));
    assert!(rt; lines.is_empty());
    Ok(())
}
