// No code: the definitions of insurance and the seven decisions stand in specs, and what each accepted one keeps of the table and its history in proofs.
// The code that meets them is in the crates decisions and draw.
#![tactic(auto)]
