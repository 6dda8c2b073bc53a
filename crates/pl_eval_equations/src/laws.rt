ghost use Rattle.pl_eval_equations.specs.Equations as equation;

/// The equations of evaluation (Microsoft Learn, Azure Pipelines, "Expressions"): one for each kind
/// of expression, and one for each function, over all that the names stand for and all arguments of
/// the function's count.
pub fn equations()
    ensures literal { equation.Literal }
    ensures root { equation.Root }
    ensures index { equation.Index }
    ensures projection { equation.Projection }
    ensures call { equation.Call }
    ensures calls_not { equation.Not }
    ensures calls_and { equation.And }
    ensures calls_or { equation.Or }
    ensures calls_xor { equation.Xor }
    ensures calls_iif { equation.Iif }
    ensures calls_coalesce { equation.Coalesce }
    ensures calls_eq { equation.Eq }
    ensures calls_ne { equation.Ne }
    ensures calls_in { equation.In }
    ensures calls_not_in { equation.NotIn }
    ensures calls_contains_value { equation.ContainsValue }
    ensures calls_lt { equation.Lt }
    ensures calls_le { equation.Le }
    ensures calls_gt { equation.Gt }
    ensures calls_ge { equation.Ge }
    ensures calls_contains { equation.Contains }
    ensures calls_starts_with { equation.StartsWith }
    ensures calls_ends_with { equation.EndsWith }
    ensures calls_lower { equation.Lower }
    ensures calls_upper { equation.Upper }
    ensures calls_trim { equation.Trim }
    ensures calls_length { equation.Length }
    ensures calls_join { equation.Join }
    ensures calls_split { equation.Split }
    ensures calls_replace { equation.Replace }
    ensures calls_format { equation.Format }
    ensures calls_always { equation.Always }
    ensures calls_canceled { equation.Canceled }
    ensures calls_failed { equation.Failed }
    ensures calls_succeeded { equation.Succeeded }
    ensures calls_succeeded_or_failed { equation.SucceededOrFailed }
{}
