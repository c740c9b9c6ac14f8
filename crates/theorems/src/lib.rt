// What the whole index promises. Definitions and theorems; no code.
//
// The promise (scope, demand 3): no stored node can be lost to search. It is a claim about any list of calls,
// on stores of any first content, whatever was refused in between. The calls are the definitions that the code
// is proved equal to; what is remembered of the list comes from the calls and the numbers that they returned,
// and from nothing in the stores.
//
// Acceptance: a call is accepted exactly if it is valid. Demand 3 says much of every accepted call and nothing
// of which calls are: it would hold of calls that refuse everything. Acceptance says the rest, over the same
// lists of calls. Whether a call returns 0 follows from its own arguments and from what is remembered of the
// list; the stores' content plays no part, since stores made by these calls are well formed.
//
// As C sees them: both theorems over every list of the C calls that take a store. A C call has the arguments of
// its function in `drintelbok`: the eight parameters are numbers, final_prune too, and recognising is a call. What
// it leaves is the right side of that function's contract. A C call is one of the promise's calls or changes
// nothing, so what those keep between two calls is kept here too.
//
// Footprint (scope, Records): a call depends on the part of each store up to its size, and on whether scratch
// is long enough.
//
// specs/Calls       a call, what it leaves, and what is remembered of a list of calls
// specs/Promise     the claim: what stands between two calls, what a search reports
// specs/Acceptance  the claim: what each call needs after which past
// specs/Starred     the checked values of the scope, as one statement over the definitions
// specs/CCalls      a C call, what it leaves, and what is remembered of a list of them
// specs/CPromise    demand 3's claim over C calls, recognising among them
// specs/CAcceptance acceptance's claim over C calls
// specs/Footprint   what a call depends on, a field for each call
//
// proofs/promise/Made           what holds between two calls, and that every call keeps it
// proofs/promise/Answers        what a search reports of any view that can be walked
// proofs/promise/AsGiven        vectors remembered as stored, or as passed in: both come to the same
// proofs/promise/Promise        the theorem `demand_3`: the claim holds of every list of calls
// proofs/promise/Refuted        stronger statements that are false, refuted by one index
// proofs/acceptance/Finite      a finite vector, scaled, is finite
// proofs/acceptance/Parts       what makes a store well formed, part by part
// proofs/acceptance/Sound       what holds between two calls beside the view; such stores pass the opening checks
// proofs/acceptance/Keeping     every call keeps it
// proofs/acceptance/Acceptance  the theorem `accepts`: the claim holds of every list of calls
// proofs/checked_values/Starred every checked value is computed
// proofs/c_calls/Recognised     recognising is a search for one node: when it is accepted, and what it answers
// proofs/c_calls/Promise        the theorem `c_demand_3`
// proofs/c_calls/Acceptance     the theorem `c_accepts`
// proofs/c_calls/Examples       the worked example as C calls, with a final_prune of 2 and with recognising
// proofs/footprint/Stores       stores that agree up to their sizes are opened and read in the same way
// proofs/footprint/Written      and so is what a call writes into them
// proofs/footprint/Footprint    the theorem `footprint`
#![tactic(auto)]
