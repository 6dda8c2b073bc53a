use crate::settings::FileText;
use pl_base::{Memory, Shared};
use pl_json::{Json, Member, Members};
use std::alloc::Global;

/// A reply: its HTTP status (RFC 9110, section 15) and its body.
#[derive(Debug, Drop)]
pub struct Reply {
    pub status: u16,
    pub body: Body,
}

/// What a reply holds: nothing, a JSON value, or a file, whose text is sent as it is and which the
/// reply shares with whoever keeps it.
#[derive(Debug, Drop)]
pub enum Body {
    Empty,
    Json(Json),
    Raw(Shared<FileText>),
}

impl Reply {
    ghost use Rattle.std.specs.Prelude.{◌≡◌, IfOk};
    ghost use Rattle.pl_requests.specs.Replies.{json_reply, refusal};

    /// A reply that is an object with these members.
    pub fn json(status: u16, members: Members<Json>) -> Reply
        ensures { result ≡ json_reply status members }
    {
        Reply {
            status,
            body: Body::Json(Json::Object(members)),
        }
    }

    /// A refusal: an object that names the rule that is broken.
    pub fn refusal(alloc: Global, status: u16, rule: &str) -> Result<Reply, Memory>
        ensures { IfOk result (λ reply. reply ≡ refusal status rule.now) }
    {
        let rule = Json::text(alloc, rule)?;
        let members = Members::one(alloc, Member::new(alloc, "rule", rule)?)?;
        Ok(Reply::json(status, members))
    }
}
