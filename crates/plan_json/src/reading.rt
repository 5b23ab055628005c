ghost use Rattle.std.specs.Prelude.{◌≡◌};
ghost use Rattle.plan_json.specs.Reading.{first, both};

/// What is wrong with a node, in the order in which flaws are told. The order is this project's own.
#[derive(Clone, Copy, Debug, PartialEq, Eq)]
pub enum Flaw {
    /// A member is missing, unknown or not of its form.
    Node,
    /// A name hasn't a name's form.
    Name,
    /// An expression or a literal hasn't its form, or is past a limit.
    Expr,
}

/// What is read of a node or of a part of one: a value, or the first of its flaws.
pub type Reading<T> = Result<T, Flaw>;

/// The first of two flaws.
fn first(left: Flaw, right: Flaw) -> Flaw
    ensures { result ≡ first left right }
{
    match left {
        Flaw::Node => Flaw::Node,
        Flaw::Name => match right {
            Flaw::Node => Flaw::Node,
            Flaw::Name | Flaw::Expr => Flaw::Name,
        },
        Flaw::Expr => right,
    }
}

/// Both values, or the first flaw of both.
pub fn both<A: Drop, B: Drop>(left: Reading<A>, right: Reading<B>) -> Reading<(A, B)>
    ensures { result ≡ both left right }
{
    match left {
        Ok(a) => match right {
            Ok(b) => Ok((a, b)),
            Err(flaw) => Err(flaw),
        },
        Err(flaw) => match right {
            Ok(_) => Err(flaw),
            Err(other) => Err(first(flaw, other)),
        },
    }
}

/// All three values, or the first flaw of all.
pub fn three<A: Drop, B: Drop, C: Drop>(
    a: Reading<A>,
    b: Reading<B>,
    c: Reading<C>,
) -> Reading<((A, B), C)>
    ensures { result ≡ both (both a b) c }
{
    both(both(a, b), c)
}

/// All four values, or the first flaw of all.
pub fn four<A: Drop, B: Drop, C: Drop, D: Drop>(
    a: Reading<A>,
    b: Reading<B>,
    c: Reading<C>,
    d: Reading<D>,
) -> Reading<(((A, B), C), D)>
    ensures { result ≡ both (both (both a b) c) d }
{
    both(three(a, b, c), d)
}

/// All five values, or the first flaw of all.
pub fn five<A: Drop, B: Drop, C: Drop, D: Drop, E: Drop>(
    a: Reading<A>,
    b: Reading<B>,
    c: Reading<C>,
    d: Reading<D>,
    e: Reading<E>,
) -> Reading<((((A, B), C), D), E)>
    ensures { result ≡ both (both (both (both a b) c) d) e }
{
    both(four(a, b, c, d), e)
}

/// All six values, or the first flaw of all.
pub fn six<A: Drop, B: Drop, C: Drop, D: Drop, E: Drop, F: Drop>(
    a: Reading<A>,
    b: Reading<B>,
    c: Reading<C>,
    d: Reading<D>,
    e: Reading<E>,
    f: Reading<F>,
) -> Reading<(((((A, B), C), D), E), F)>
    ensures { result ≡ both (both (both (both (both a b) c) d) e) f }
{
    both(five(a, b, c, d, e), f)
}

/// All seven values, or the first flaw of all.
pub fn seven<A: Drop, B: Drop, C: Drop, D: Drop, E: Drop, F: Drop, G: Drop>(
    a: Reading<A>,
    b: Reading<B>,
    c: Reading<C>,
    d: Reading<D>,
    e: Reading<E>,
    f: Reading<F>,
    g: Reading<G>,
) -> Reading<((((((A, B), C), D), E), F), G)>
    ensures { result ≡ both (both (both (both (both (both a b) c) d) e) f) g }
{
    both(six(a, b, c, d, e, f), g)
}

/// All nine values, or the first flaw of all.
pub fn nine<A: Drop, B: Drop, C: Drop, D: Drop, E: Drop, F: Drop, G: Drop, H: Drop, I: Drop>(
    a: Reading<A>,
    b: Reading<B>,
    c: Reading<C>,
    d: Reading<D>,
    e: Reading<E>,
    f: Reading<F>,
    g: Reading<G>,
    h: Reading<H>,
    i: Reading<I>,
) -> Reading<((((((((A, B), C), D), E), F), G), H), I)>
    ensures { result ≡ both (both (both (both (both (both (both (both a b) c) d) e) f) g) h) i }
{
    both(both(seven(a, b, c, d, e, f, g), h), i)
}
