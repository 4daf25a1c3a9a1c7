// The steps on a product: field write, record write, mark. This crate holds their definitions and laws; `writes` and `marks` hold the code, and
// `touched` that of which entries a run of steps has touched.
#![tactic(auto)]
