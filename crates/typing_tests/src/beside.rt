//! Inference beside a search of all typings.

// What is inferred, beside the search.

use crate::cases::{OF_DELETES, OF_INSERTS, OF_QUERIES, OF_TABLES, OF_UPDATES, WORKED};
use crate::makers::bound;
use crate::search::searched;
use crate::small::{Answer, Ask, Form, Kind, Part};
use ae_base::refusals::Refusal;
use ae_base::types::Enc;
use inference::infer::infer;
use std::alloc::Global;
use std::test::Fail;

fn kind(enc: Enc) -> Kind {
    match enc {
        Enc::Plain => Kind::Plain,
        Enc::Det(key) => Kind::Det(key.number()),
        Enc::Rnd(key) => Kind::Rnd(key.number()),
    }
}

fn answer(encs: &[Enc]) -> Option<Answer> {
    match encs {
        [p, q, s] => Some(Answer::Typed([kind(*p), kind(*q), kind(*s)])),
        _ => None,
    }
}

// What is inferred of a statement, `None` where there is no memory.
fn inferred(alloc: Global, form: Form, parts: &[Part]) -> Option<Answer> {
    match infer(alloc, bound(alloc, form, parts)?) {
        Ok(typed) => answer(typed.encs()),
        Err(Refusal::Fault(clash)) => Some(Answer::Clash(clash.at)),
        Err(Refusal::OutOfMemory) => None,
    }
}

// The place of the first statement of which something else is found or inferred than is said.
fn first_apart(alloc: Global, worked: &[(Form, [Part; 2], Answer)]) -> Option<usize> {
    for i in 0..worked.len() {
        let (form, [first, second], answer) = worked[i];
        let parts = [first, second];
        if searched(&parts) != Some(answer) || inferred(alloc, form, &parts) != Some(answer) {
            return Some(i);
        }
    }
    None
}

// The places of two parts of which something else is inferred than is found.
fn pair_apart(alloc: Global, form: Form, asks: &[Ask]) -> Option<(usize, usize)> {
    for i in 0..asks.len() {
        for j in 0..asks.len() {
            let parts = [(10, asks[i]), (20, asks[j])];
            if searched(&parts) != inferred(alloc, form, &parts) {
                return Some((i, j));
            }
        }
    }
    None
}

#[test]
fn infers_what_is_said(rt: HostRuntime) -> Result<(), Fail> {
    assert_eq!(rt; first_apart(rt.alloc(), &WORKED), None);
    Ok(())
}

#[test]
fn infers_what_is_found(rt: HostRuntime) -> Result<(), Fail> {
    let alloc = rt.alloc();
    assert_eq!(rt; pair_apart(alloc, Form::Query, &OF_QUERIES), None);
    assert_eq!(rt; pair_apart(alloc, Form::Update, &OF_UPDATES), None);
    assert_eq!(rt; pair_apart(alloc, Form::Insert, &OF_INSERTS), None);
    assert_eq!(rt; pair_apart(alloc, Form::Delete, &OF_DELETES), None);
    assert_eq!(rt; pair_apart(alloc, Form::Create, &OF_TABLES), None);
    Ok(())
}
