// Certificates.

ghost use Rattle.std.specs.Prelude.{◌≡◌};
ghost use Rattle.mlk_cert_parts.specs.Limits.{IsCertificate};

use crate::block::EntryCert;
use mlk_text::List;
use std::marker::Model;

/// A certificate: it respects all limits and orders, no two blocks have the same entry text, and no point is without a case.
/// A contract sees the list of its blocks.
#[derive(Drop)]
pub struct Certificate {
    blocks: List<EntryCert>,
}

impl Model for Certificate {
    ghost use Rattle.std.specs.Prelude.{List as Elements};
    ghost use Rattle.mlk_cert_parts.specs.declared.block.EntryCert.{EntryCert};

    ghost Value = { Elements EntryCert };

    ghost use Rattle.mlk_cert_parts.specs.Limits.{IsCertificate};

    ghost view = { λ c. c.blocks };

    ghost invariant = { λ c. IsCertificate c.blocks };
}

impl Certificate {
    /// The certificate of `blocks`, which respect all limits and orders.
    pub fn of(blocks: Vec<EntryCert>) -> Certificate
        requires { IsCertificate blocks.items }
        ensures { result ≡ blocks.items }
    {
        Certificate {
            blocks: List::of(blocks),
        }
    }

    /// The blocks, in order.
    pub fn blocks(&self) -> &[EntryCert]
        ensures blocks { result.now ≡ self.now }
        ensures limits { IsCertificate self.now }
    {
        self.blocks.as_slice()
    }
}
