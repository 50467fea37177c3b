// Whether a part respects its limits and orders.

ghost use Rattle.std.specs.Prelude.{◌≡◌, ◌&&◌};
ghost use Rattle.mlk_cert.specs.Fitting.{passes};

/// Whether a part respects its limits and orders; a broken limit is reported before a broken order.
#[derive(Clone, Copy)]
pub(crate) enum Fit {
    Yes,
    Limit,
    Order,
}

/// The result for a list.
pub(crate) fn fit_of(few: bool, ordered: bool) -> Fit
    ensures { passes result ≡ (few && ordered) }
{
    if !few {
        return Fit::Limit;
    }
    if ordered { Fit::Yes } else { Fit::Order }
}

/// The result for two parts.
pub(crate) fn fit_both(first: Fit, second: Fit) -> Fit
    ensures { passes result ≡ (passes first && passes second) }
{
    match (first, second) {
        (Fit::Limit, _) => Fit::Limit,
        (_, Fit::Limit) => Fit::Limit,
        (Fit::Order, _) => Fit::Order,
        (_, Fit::Order) => Fit::Order,
        (Fit::Yes, Fit::Yes) => Fit::Yes,
    }
}

impl Fit {
    /// Whether limits and orders are respected.
    pub fn is_yes(self) -> bool
        ensures { result ≡ passes self }
    {
        match self {
            Fit::Yes => true,
            _ => false,
        }
    }
}
