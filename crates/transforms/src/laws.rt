//! Laws of drivers, and of what they give.

ghost use Rattle.std.specs.Prelude.{◌≡◌, ◌+◌, ◌≤◌, ℕ, List, Some};
ghost use Rattle.std.specs.Arc.{arc_value};
ghost use Rattle.alg_names.specs.Name.{Tree};
ghost use Rattle.templates.specs.declared.driver_plans.Plan.{Plan};
ghost use Rattle.templates.specs.Plans.{plan_at};
ghost use Rattle.transforms.specs.AskValue.{ask_value, ask_size};
ghost use Rattle.transforms.specs.Asked.{takes};
ghost use Rattle.transforms.specs.Cuts.{uncut};
ghost use Rattle.transforms.specs.Drivers.{driver_of, unwrapped};
ghost use Rattle.transforms.specs.Finish.{finished_of, finished_length};
ghost use Rattle.transforms.specs.RequestValue.{request_value};
ghost use Rattle.transforms.specs.declared.ask.Ask.{Ask};
ghost use Rattle.transforms.specs.declared.request.Request.{Request};

/// Whatever driver has a plan is the plan's own, or that in a `pcrypt` or a `cryptd`, and gives what the plan's own
/// gives. So an ask has the value of its request at each driver of its transform's plan.
pub fn drivers_have_values()
    ensures planned { (plan : Plan) → plan_at (driver_of plan) ≡ Some plan }
    ensures unwrapped { (driver : Tree) (plan : Plan) → plan_at driver ≡ Some plan → unwrapped driver ≡ driver_of plan }
    ensures wrapped { (driver : Tree) (plan : Plan) → plan_at driver ≡ Some plan → request_value driver ≡ request_value (driver_of plan) }
    ensures asks { (ask : Ask) (driver : Tree) → plan_at driver ≡ Some (arc_value ask.keyed).0
        → ask_value ask ≡ request_value driver (arc_value ask.keyed).1 ask.authsize ask.request }
{}

/// How the text of a request is cut into segments changes nothing: with its text in one segment the request has the
/// same value, and is taken by the same plans.
pub fn cuts_change_nothing()
    ensures value { (driver : Tree) (key : List ℕ) (n : ℕ) (q : Request)
        → request_value driver key n q ≡ request_value driver key n (uncut q) }
    ensures taken { (plan : Plan) (n : ℕ) (q : Request) → takes plan n q ≡ takes plan n (uncut q) }
{}

/// What a job gives has at most 64 bytes more than what was asked: no tag and no MAC is longer.
pub fn values_are_short()
    ensures { (ask : Ask) → finished_length (finished_of (ask_value ask)) ≤ ask_size ask + 64 }
{}
