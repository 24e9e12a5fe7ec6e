#![tactic(auto)]

// The scope document's lettered examples, proved about the definitions of the model, and a witness that the hypotheses of
// noninterference can be met: all in specs/.
