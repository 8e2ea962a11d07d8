//! The tag sizes of plans.

ghost use Rattle.std.specs.Prelude.{◌≡◌, true, false, MatchResult, OnOk};
ghost use Rattle.transforms.specs.Plans.{takes_tag, tag_size_of, fits_tag};

use cmac_ccm::takes_ccm_tag;
use gcm_mode::{takes_gcm_tag, takes_rfc4106_tag};
use kc_base::Errno;
use templates::Plan;

/// Whether the plan takes a tag of `n` bytes: GCM 4, 8 and 12 to 16, RFC 4106 8, 12 and 16, CCM the even sizes from 4
/// to 16, authenc 1 to 32. `EINVAL` exactly where it doesn't, or has no tag. No memory is taken.
pub fn tag_size(plan: &Plan, n: u32) -> Result<(), Errno>
    ensures taken { MatchResult result (λ _. takes_tag plan.now n ≡ true) (λ e. (e ≡ Errno.EINVAL) × (takes_tag plan.now n ≡ false)) }
    ensures fits { OnOk result (fits_tag plan.now n ≡ true) }
{
    let taken = match *plan {
        Plan::Cbc(_) | Plan::Ctr(_) | Plan::Rfc3686(_) | Plan::Xts(_) => false,
        Plan::Hmac | Plan::Cmac(_) => false,
        Plan::Gcm(..) => takes_gcm_tag(n as usize),
        Plan::Rfc4106(..) => takes_rfc4106_tag(n as usize),
        Plan::Ccm(_) => takes_ccm_tag(n as usize),
        Plan::AuthencCbc(_) | Plan::AuthencCtr(_) | Plan::AuthencRfc3686(_) | Plan::AuthencXts(_) =>
            { 1 <= n && n <= 32 }
    };
    if taken { Ok(()) } else { Err(Errno::EINVAL) }
}

/// The tag size of a transform before another is set, in bytes: 16 under GCM, RFC 4106 and CCM, 32 under authenc, and 0
/// on a plan that has no tag.
pub fn largest_tag_size(plan: &Plan) -> u32
    ensures size { result ≡ tag_size_of plan.now }
    ensures fits { fits_tag plan.now result ≡ true }
{
    match *plan {
        Plan::Cbc(_) | Plan::Ctr(_) | Plan::Rfc3686(_) | Plan::Xts(_) => 0,
        Plan::Hmac | Plan::Cmac(_) => 0,
        Plan::Gcm(..) | Plan::Rfc4106(..) | Plan::Ccm(_) => 16,
        Plan::AuthencCbc(_) | Plan::AuthencCtr(_) | Plan::AuthencRfc3686(_) | Plan::AuthencXts(_) =>
            32,
    }
}
