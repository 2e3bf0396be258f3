ghost use Rattle.exh_calls.specs.Call.{key_of};
ghost use Rattle.exh_page.specs.Lookup.{IsLookup};
ghost use Rattle.exh_page.specs.declared.page.Page.{Page};
ghost use Rattle.exh_ward.specs.Sight.{SightOf};

use super::home_sight::HomeSight;
use exh_calls::Call;
use exh_page::{Lookup, PageHead};
use exh_prefix::{LIMIT, PageNo};

/// What a call meets at a page.
#[derive(Drop)]
pub(crate) enum Sight<'a> {
    /// The page is for greater pseudokeys, or isn't there.
    Beyond,
    /// Another page is nearer to the key's home.
    Leads(PageNo),
    /// The page isn't the key's home, and has no right link.
    NoWay,
    /// The page is the key's home, and has to be split before it takes the key.
    Overflows,
    /// The page is the key's home, and answers.
    Home(HomeSight<'a>),
}

impl<'a> Sight<'a> {
    /// What a call of a key with this pseudokey meets at a page that has this for the key.
    pub(crate) fn of(found: Lookup<'a>, cap: usize, pseudokey: u64, call: &Call) -> Sight<'a>
        ensures { (page : Page) → IsLookup (pseudokey, key_of call.now) page found.entry → SightOf cap pseudokey page call.now result }
    {
        let Lookup { head, spot, value } = found;
        if pseudokey < head.low() {
            return Sight::Beyond;
        }
        match head {
            PageHead::Forward { target, .. } => Sight::Leads(target),
            PageHead::Live {
                prefix,
                right,
                count,
            } => {
                if !prefix.begins(pseudokey) {
                    return match right {
                        Some(next) => Sight::Leads(next),
                        None => Sight::NoWay,
                    };
                }
                let full = count >= cap;
                if full && prefix.len() < LIMIT && call.sets_new() && value.is_none() {
                    return Sight::Overflows;
                }
                Sight::Home(HomeSight {
                    full,
                    spot,
                    stood: value,
                })
            }
        }
    }
}
