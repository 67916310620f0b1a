//! Worlds of the sample founding, and a first day that is played on one.

use rbac_founding::sample_founding;
use rbac_words::Group;
use rbac_world::World;
use std::alloc::Global;
use std::process::Abort;

/// The world of the sample founding with so many members, founded again where a growth is refused.
pub(crate) fn sample_world(rt: &impl Abort, alloc: Global, members: u32) -> World {
    let group = Group::build(members, 0, 65_536).expect(rt, "a group");
    let founded = match sample_founding(alloc) {
        Ok(founding) => World::found(alloc, group, founding.vocabulary).ok(),
        Err(_) => None,
    };
    match founded {
        Some(world) => world,
        None => {
            let founding = sample_founding(alloc).ok().expect(rt, "a founding");
            World::found(alloc, group, founding.vocabulary).expect(rt, "memory")
        }
    }
}

/// The first day: a user comes to read the ledger. Each command is submitted, and delivered at once.
pub(crate) const DAY: &str =
    r#"{"do":"submit","at":1,"caller":0,"serial":0,"command":{"name":"AddUser","user":"ann"}}
{"do":"deliver","at":1}
{"do":"submit","at":1,"caller":0,"serial":1,"command":{"name":"AddRole","role":"clerk"}}
{"do":"deliver","at":1}
{"do":"submit","at":1,"caller":0,"serial":2,"command":{"name":"AssignUser","user":"ann","role":"clerk"}}
{"do":"deliver","at":1}
{"do":"submit","at":1,"caller":0,"serial":3,"command":{"name":"GrantPermission","operation":"read","object":"ledger","role":"clerk"}}
{"do":"deliver","at":1}
{"do":"submit","at":1,"caller":0,"serial":4,"command":{"name":"CreateSession","user":"ann","session":"s1","roles":["clerk"]}}
{"do":"deliver","at":1}
{"do":"submit","at":1,"caller":0,"serial":5,"command":{"name":"CheckAccess","session":"s1","operation":"read","object":"ledger"}}
{"do":"deliver","at":1}
"#;

/// The texts of the first day on the sample founding.
pub(crate) const DAY_TOLD: &[u8] = br#"{"line":1,"stamp":[1,1]}
{"answer":"Done","caller":0,"line":2,"serial":0,"stamp":[1,1]}
{"line":3,"stamp":[2,1]}
{"answer":"Done","caller":0,"line":4,"serial":1,"stamp":[2,1]}
{"line":5,"stamp":[3,1]}
{"answer":"Done","caller":0,"line":6,"serial":2,"stamp":[3,1]}
{"line":7,"stamp":[4,1]}
{"answer":"Done","caller":0,"line":8,"serial":3,"stamp":[4,1]}
{"line":9,"stamp":[5,1]}
{"answer":"Done","caller":0,"line":10,"serial":4,"stamp":[5,1]}
{"line":11,"stamp":[6,1]}
{"answer":"Granted","caller":0,"line":12,"serial":5,"stamp":[6,1]}
"#;
