//! Linear sums, worked by hand. The function of number 0 isn't static and its term has the value 5; that of number 1 has none.
use np_frac::{Frac, Scalar};
use np_linear::{
    Finding, Halt, Linear, checked_product, checked_sum, is_constant, is_zero, linear_of,
    linear_sum, with_multiple,
};
use np_model::{Name, Objects, Signature, Sum, Term, ValueMap};
use sqlite_items::{Boxed, Items};
use std::process::Abort;

/// A whole number.
fn whole(rt: &impl Abort, number: i128) -> Frac {
    Frac::of(number, 1).expect(rt, "it fits")
}

/// A term without objects.
fn term(rt: &(impl Abort + AllocGlobal), function: u32) -> Term {
    let objects = Objects::new(rt.alloc());
    Term { function, objects }
}

/// A value of a function without arguments.
fn value(rt: &(impl Abort + AllocGlobal), function: u32) -> Sum {
    Sum::Value(function, Items::new(rt.alloc()))
}

/// One function that isn't static.
fn functions(rt: &(impl Abort + AllocGlobal)) -> Items<Signature> {
    let mut functions = Items::new(rt.alloc());
    let signature = Signature {
        name: Name::new(String::from_str(rt.alloc(), "x").expect(rt, "memory")),
        parameters: Items::new(rt.alloc()),
        fixed: false,
    };
    functions.push(signature).expect(rt, "memory");
    functions
}

/// A sum as a linear sum, where x is 5 at the start.
fn read(rt: &(impl Abort + AllocGlobal), sum: &Sum) -> Result<Linear, Halt<Finding>> {
    let values = Vec::from_array(rt.alloc(), [(term(rt, 0), whole(rt, 5))]).expect(rt, "memory");
    let values = ValueMap::new(rt.alloc(), values.as_slice()).expect(rt, "memory");
    linear_of(rt.alloc(), functions(rt).as_slice(), &values, &[], sum)
}

/// A box around a sum.
fn boxed(rt: &(impl Abort + AllocGlobal), sum: Sum) -> Boxed<Sum> {
    Boxed::new(rt.alloc(), sum).expect(rt, "memory")
}

/// Whether a linear sum has this constant, and this coefficient alone.
fn is_made_of(linear: &Linear, constant: i128, coefficient: i128) -> bool {
    let terms = linear.terms.as_slice();
    linear.constant.num() == constant && terms.len() == 1 && terms[0].1.num() == coefficient
}

#[test]
fn sums_are_read(rt: HostRuntime) {
    let difference = Sum::Sub(
        boxed(&rt, Sum::Number(whole(&rt, 3))),
        boxed(&rt, value(&rt, 0)),
    );
    let linear = read(&rt, &difference).ok().expect(&rt, "it is linear");
    assert!(&rt;
        is_made_of(&linear, 3, -1) && !is_constant(&linear),
        "3 - x"
    );
    let twice = linear_sum(
        rt.alloc(),
        true,
        read(&rt, &difference).ok().expect(&rt, "it is linear"),
        &linear,
    );
    assert!(&rt;
        is_made_of(&twice.ok().expect(&rt, "it fits"), 6, -2),
        "6 - 2 x"
    );
    let missing = matches!(
        read(&rt, &value(&rt, 1)),
        Err(Halt::Cause(Finding::Missing))
    );
    let square = Sum::Div(
        boxed(&rt, Sum::Number(Frac::one())),
        boxed(&rt, value(&rt, 0)),
    );
    let not_linear = matches!(read(&rt, &square), Err(Halt::Cause(Finding::NotLinear)));
    assert!(&rt; missing && not_linear, "findings");
}

#[test]
fn multiples_and_fractions(rt: HostRuntime) {
    let terms = with_multiple(
        false,
        true,
        term(&rt, 0),
        whole(&rt, 2),
        Items::new(rt.alloc()),
    );
    let terms = terms.ok().expect(&rt, "memory");
    assert_eq!(&rt; terms.as_slice().len(), 1, "a new term");
    let none = with_multiple(false, false, term(&rt, 0), whole(&rt, 2), terms)
        .ok()
        .expect(&rt, "memory");
    assert_eq!(&rt; none.as_slice().len(), 0, "it vanishes");
    let sum = checked_sum(false, &whole(&rt, 2), &whole(&rt, 2))
        .ok()
        .expect(&rt, "it fits");
    assert!(&rt; is_zero(&sum), "2 - 2");
    let product = checked_product(false, &whole(&rt, -2), &whole(&rt, 3))
        .ok()
        .expect(&rt, "it fits");
    assert_eq!(&rt; product.num(), -6, "-2 * 3");
}
