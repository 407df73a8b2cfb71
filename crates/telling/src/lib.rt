// What is told, case by case: of a file, a refusal, an answer, a step, an easing, a log. The promises cite it.
#![tactic(auto)]
