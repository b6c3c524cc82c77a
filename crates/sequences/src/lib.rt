// Demands 2 and 3 over the calls of the held reel: both round trips, and the theorem on every sequence of calls; that
// readings change no answer, the values of sums, the reasons of answers, and same beside the bytes of two writes. No
// functions: the statements in specs/, the theorems in proofs/.
#![tactic(auto)]
