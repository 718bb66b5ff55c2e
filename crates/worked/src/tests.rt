// The worked books through the calls themselves: entered rule by rule, searched, judged and compared. And the limits. The
// runtime and the memory stay two parameters, as in the calls of the library.
use book::{Body, Book, Head, Literal, MOST_STATEMENTS, Rule};
use engine::{Comparison, compare};
use scale::{Godel, Hours, Luk, Refusal, Scale};
use solve::{Verdict, seek};
use std::alloc::Global;
use std::process::Abort;
use std::test::Fail;

const A: u8 = 0;

const B: u8 = 1;

const C: u8 = 2;

fn fact(weight: u8, head: u8) -> Rule {
    Rule::fact(Head::Statement(head), weight)
}

fn rule(weight: u8, head: u8, literal: Literal) -> Rule {
    Rule {
        head: Head::Statement(head),
        weight,
        body: Body::single(literal),
    }
}

// A rule of the weight 4 with two literals.
fn pair(head: Head, one: Literal, other: Literal) -> Result<Rule, Fail> {
    let body = Body::new(&[one, other]).map_err(|_| Fail::new("the body was refused"))?;
    Ok(Rule {
        head,
        weight: 4,
        body,
    })
}

// The number of the refusal, if there was one.
fn refused<T: Drop>(answer: Result<T, Refusal>) -> Option<u8> {
    Some(answer.err()?.number())
}

fn made<S: Drop>(scale: Result<S, Refusal>) -> Result<S, Fail> {
    scale.map_err(|_| Fail::new("the scale was refused"))
}

fn filled(
    rt: &impl Abort,
    heap: Global,
    levels: u8,
    statements: u8,
    rules: &[Rule],
) -> Result<Book, Fail> {
    let mut book = Book::new(heap)?;
    assert!(rt; book.make(levels, statements).is_ok());
    for rule in rules {
        assert!(rt;
            book.enter(rule.head, rule.weight, rule.body.literals())
                .is_ok()
        );
    }
    Ok(book)
}

// What seek answers of a book.
fn sought<S: Scale + Drop>(
    rt: &impl Abort,
    heap: Global,
    scale: Result<S, Refusal>,
    statements: u8,
    rules: &[Rule],
    start: u64,
) -> Result<Result<Option<(u64, u32)>, Refusal>, Fail> {
    let scale = made(scale)?;
    let book = filled(rt, heap, scale.levels(), statements, rules)?;
    let mut place = vec![in heap; 0; usize::from(statements)]?;
    Ok(seek(&scale, &book, start, &mut place))
}

// The scenes are exactly those at these positions, in order.
fn scenes_are<S: Scale + Copy>(
    rt: &impl Abort,
    heap: Global,
    scale: Result<S, Refusal>,
    statements: u8,
    rules: &[Rule],
    positions: &[u64],
) -> Result<(), Fail> {
    let mut start = 0;
    for position in positions {
        match sought(rt, heap, scale, statements, rules, start)? {
            Ok(Some((found, _))) => assert!(rt; found == *position),
            Ok(None) | Err(_) => return Err(Fail::new("a scene is missing")),
        }
        start = position.saturating_add(1);
    }
    assert!(rt; matches!(sought(rt, heap, scale, statements, rules, start)?, Ok(None)));
    Ok(())
}

// What check answers of a setting on luk 4.
fn judged(
    rt: &impl Abort,
    heap: Global,
    rules: &[Rule],
    setting: &[u8],
) -> Result<Result<Verdict, Refusal>, Fail> {
    let scale = made(Luk::new(4))?;
    assert!(rt; setting.len() <= MOST_STATEMENTS);
    let book = filled(rt, heap, 5, setting.len() as u8, rules)?;
    Ok(solve::check(&scale, &book, setting))
}

// What compare answers of two books.
fn compared<S: Scale + Drop>(
    rt: &impl Abort,
    heap: Global,
    scale: Result<S, Refusal>,
    statements: u8,
    first: &[Rule],
    second: &[Rule],
) -> Result<Result<Comparison, Refusal>, Fail> {
    let scale = made(scale)?;
    let one = filled(rt, heap, scale.levels(), statements, first)?;
    let two = filled(rt, heap, scale.levels(), statements, second)?;
    let length = usize::from(statements);
    let mut addendum = vec![in heap; fact(0, A); 2 * MOST_STATEMENTS]?;
    let mut setting = vec![in heap; 0; length]?;
    Ok(compare(&scale, &one, &two, &mut addendum, &mut setting))
}

#[test]
fn scenes_of_one(rt: HostRuntime) -> Result<(), Fail> {
    let heap = rt.alloc();
    let four = [rule(4, A, Literal::Lacking(A))];
    let three = [rule(3, A, Literal::Lacking(A))];
    scenes_are(&rt, heap, Luk::new(4), 1, &four, &[2])?;
    scenes_are(&rt, heap, Luk::new(3), 1, &three, &[])?;
    scenes_are(&rt, heap, Luk::new(4), 1, &three, &[])?;
    scenes_are(&rt, heap, Godel::new(4), 1, &three, &[2])?;
    scenes_are(
        &rt,
        heap,
        Luk::new(4),
        1,
        &[rule(4, A, Literal::Plain(A))],
        &[0],
    )?;
    scenes_are(&rt, heap, Hours::new(2), 1, &[fact(1, A), fact(2, A)], &[3])
}

#[test]
fn scenes_of_two(rt: HostRuntime) -> Result<(), Fail> {
    let heap = rt.alloc();
    let never_both = pair(Head::Bound(0), Literal::Plain(A), Literal::Plain(B))?;
    let a = rule(4, A, Literal::Lacking(B));
    let b = rule(4, B, Literal::Lacking(A));
    let up = rule(4, A, Literal::Plain(B));
    let down = rule(4, B, Literal::Plain(A));
    scenes_are(&rt, heap, Luk::new(4), 2, &[a, b], &[4, 8, 12, 16, 20])?;
    scenes_are(
        &rt,
        heap,
        Luk::new(4),
        2,
        &[a, b, never_both],
        &[4, 8, 12, 16, 20],
    )?;
    scenes_are(&rt, heap, Godel::new(4), 2, &[a, b, never_both], &[4, 20])?;
    scenes_are(&rt, heap, Luk::new(4), 2, &[up, fact(4, B)], &[24])?;
    scenes_are(&rt, heap, Luk::new(4), 2, &[up, down], &[0])?;
    scenes_are(&rt, heap, Luk::new(4), 2, &[], &[0])
}

#[test]
fn verdicts(rt: HostRuntime) -> Result<(), Fail> {
    let heap = rt.alloc();
    let itself = judged(&rt, heap, &[rule(4, A, Literal::Plain(A))], &[4])?;
    assert!(rt;
        matches!(
            itself,
            Ok(Verdict::Unsupported {
                statement: 0,
                degree: 0
            })
        )
    );
    let up = judged(
        &rt,
        heap,
        &[rule(4, A, Literal::Plain(B)), fact(4, B)],
        &[4, 4],
    )?;
    assert!(rt; matches!(up, Ok(Verdict::Scene { rounds: 2 })));
    let broken = judged(&rt, heap, &[rule(3, A, Literal::Plain(B))], &[1, 3])?;
    assert!(rt;
        matches!(
            broken,
            Ok(Verdict::Broken {
                rule: 0,
                residuum: 2
            })
        )
    );
    Ok(())
}

#[test]
fn comparisons(rt: HostRuntime) -> Result<(), Fail> {
    let heap = rt.alloc();
    let twice = pair(Head::Statement(A), Literal::Plain(B), Literal::Plain(B))?;
    let once = rule(4, A, Literal::Plain(B));
    let back = rule(4, B, Literal::Plain(A));
    let one = rule(3, A, Literal::Plain(B));
    let two = rule(3, B, Literal::Plain(C));
    let both = rule(2, A, Literal::Plain(C));
    let held_up = compared(&rt, heap, Luk::new(4), 2, &[once, back], &[])?;
    assert!(rt; matches!(held_up, Ok(Comparison::Unequal { book: _, rules: _ })));
    let on_luk = compared(&rt, heap, Luk::new(4), 2, &[twice], &[once])?;
    assert!(rt; matches!(on_luk, Ok(Comparison::Unequal { book: _, rules: _ })));
    let on_godel = compared(&rt, heap, Godel::new(4), 2, &[twice], &[once])?;
    assert!(rt; matches!(on_godel, Ok(Comparison::Equal)));
    let steps = compared(&rt, heap, Luk::new(4), 3, &[one, two, both], &[one, two])?;
    assert!(rt; matches!(steps, Ok(Comparison::Equal)));
    Ok(())
}

#[test]
fn limits(rt: HostRuntime) -> Result<(), Fail> {
    let heap = rt.alloc();
    assert_eq!(rt; refused(Luk::new(63)), None);
    assert_eq!(rt; refused(Luk::new(64)), Some(6));
    assert!(rt; matches!(sought(&rt, heap, Luk::new(4), 0, &[], 0)?, Ok(Some((0, 0)))));
    assert_eq!(rt; refused(sought(&rt, heap, Luk::new(3), 8, &[], 0)?), None);
    assert_eq!(rt;
        refused(sought(&rt, heap, Luk::new(3), 9, &[], 0)?),
        Some(16)
    );
    assert_eq!(rt;
        refused(compared(&rt, heap, Luk::new(3), 6, &[], &[])?),
        None
    );
    assert_eq!(rt;
        refused(compared(&rt, heap, Luk::new(3), 7, &[], &[])?),
        Some(16)
    );
    let mut full = filled(&rt, heap, 5, 1, &[fact(1, A); 64])?;
    assert_eq!(rt; refused(full.enter(Head::Statement(A), 1, &[])), Some(11));
    Ok(())
}
