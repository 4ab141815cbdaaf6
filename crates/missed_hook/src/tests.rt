ghost use Rattle.std.specs.Prelude.{◌≡◌, [], ◌∷◌, OnOk};
ghost use Rattle.chat_model.specs.declared.deal.Outcome.TheVariants as outcome;

use crate::{PlainPipe, Post, Take};
use chat_model::{DealNo, List, Outcome};
use std::alloc::Global;
use std::test::Fail;

/// Sends the first deal, of no users, and the one after it.
fn send_two<P: Post>(alloc: Global, pipe: &mut P) -> Result<(), Outcome>
    requires { P.sent pipe.old ≡ [] }
    ensures { OnOk result (P.sent pipe.new ≡ outcome.Dealt (record { 0 = 7 }) [] ∷ outcome.Dealt (record { 0 = 8 }) [] ∷ []) }
{
    pipe.post(Outcome::Dealt {
        deal: DealNo(7),
        verdicts: List::new(alloc),
    })?;
    pipe.post(Outcome::Dealt {
        deal: DealNo(8),
        verdicts: List::new(alloc),
    })
}

#[test]
fn what_is_sent_is_kept_in_order(rt: HostRuntime) -> Result<(), Fail> {
    let mut pipe = PlainPipe::new(rt.alloc());
    assert!(rt; pipe.sent().is_empty());
    assert!(rt; send_two(rt.alloc(), &mut pipe).is_ok());
    assert_eq!(rt; pipe.sent().len(), 2);
    assert!(rt;
        matches!(
            pipe.sent()[0],
            Outcome::Dealt {
                deal: DealNo(7),
                ..
            }
        )
    );
    assert!(rt;
        matches!(
            pipe.sent()[1],
            Outcome::Dealt {
                deal: DealNo(8),
                ..
            }
        )
    );
    Ok(())
}

/// The number of the deal that is taken next, if an outcome waits that deals one.
fn take_deal<P: Take>(pipe: &mut P) -> Option<DealNo> {
    match pipe.take() {
        Some(Outcome::Dealt { deal, .. }) => Some(deal),
        _ => None,
    }
}

#[test]
fn what_is_taken_is_the_first_that_waits(rt: HostRuntime) -> Result<(), Fail> {
    let mut pipe = PlainPipe::new(rt.alloc());
    assert!(rt; send_two(rt.alloc(), &mut pipe).is_ok());
    assert_eq!(rt; take_deal(&mut pipe), Some(DealNo(7)));
    assert_eq!(rt; take_deal(&mut pipe), Some(DealNo(8)));
    assert!(rt; take_deal(&mut pipe).is_none());
    assert_eq!(rt; pipe.sent().len(), 2);
    Ok(())
}
