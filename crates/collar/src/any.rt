// One of the collars, chosen while a program runs. An enum and no dyn: the kinds are few and known.
ghost use Rattle.collar.specs.Any.{allows_any};

use crate::{AroundLast, AroundStatic, Collar, FixedBand};

#[derive(Drop)]
pub enum AnyCollar {
    Band(FixedBand),
    AroundLast(AroundLast),
    StaticBand(AroundStatic<FixedBand>),
    StaticLast(AroundStatic<AroundLast>),
}

impl Collar for AnyCollar {
    ghost allows = { allows_any };

    fn is_allowed(&self, static_price: u32, last: u32, price: u32) -> bool {
        match self {
            AnyCollar::Band(c) => c.is_allowed(static_price, last, price),
            AnyCollar::AroundLast(c) => c.is_allowed(static_price, last, price),
            AnyCollar::StaticBand(c) => c.is_allowed(static_price, last, price),
            AnyCollar::StaticLast(c) => c.is_allowed(static_price, last, price),
        }
    }
}
