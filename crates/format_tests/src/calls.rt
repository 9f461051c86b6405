// Every row and every refusal, at units that write down what they are asked.
mod desk;
mod refusals;
mod rows;
